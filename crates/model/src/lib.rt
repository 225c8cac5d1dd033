// No function: this crate is the model of document 002 as the scope paper states it, and the theorems about all schedules.
