// The host window as C sees it: an export for each of `window`'s calls, under the same name and with the same promise.
#![tactic(auto)]

ghost use Rattle.promise.specs.Window.{PlanBytesPromise, PlanNumbersPromise, RoomBytesPromise};
ghost use Rattle.promise.specs.DeskWindow.{OpenBytesPromise, AdmitBytesPromise, WithdrawBytesPromise, LookBytesPromise, RunBytesPromise};

#[unsafe(no_mangle)]
pub extern "C" fn vezhdanur_plan(machines: u32, list: &[u8], plan: &mut [u8]) -> u64
    ensures { PlanBytesPromise machines list.now plan.old result plan.new }
{
    window::vezhdanur_plan(machines, list, plan)
}

#[unsafe(no_mangle)]
pub extern "C" fn vezhdanur_plan_numbers(machines: u32, rows: &[u32], plan: &mut [u16]) -> u64
    ensures { PlanNumbersPromise machines rows.now plan.old result plan.new }
{
    window::vezhdanur_plan_numbers(machines, rows, plan)
}

#[unsafe(no_mangle)]
pub extern "C" fn vezhdanur_room(machines: u32, list: &[u8], boundary: u32) -> u64
    ensures { RoomBytesPromise machines list.now boundary result }
{
    window::vezhdanur_room(machines, list, boundary)
}

#[unsafe(no_mangle)]
pub extern "C" fn vezhdanur_open(machines: u32, bytes: &mut [u8]) -> u64
    ensures { OpenBytesPromise machines bytes.old result bytes.new }
{
    window::vezhdanur_open(machines, bytes)
}

#[unsafe(no_mangle)]
pub extern "C" fn vezhdanur_admit(
    bytes: &mut [u8],
    number: u32,
    work: u32,
    deadline: u32,
    bound: u32,
) -> u64
    ensures { AdmitBytesPromise bytes.old (record { number = number; work = work; deadline = deadline; bound = bound }) result bytes.new }
{
    window::vezhdanur_admit(bytes, number, work, deadline, bound)
}

#[unsafe(no_mangle)]
pub extern "C" fn vezhdanur_withdraw(bytes: &mut [u8], number: u32) -> u64
    ensures { WithdrawBytesPromise bytes.old number result bytes.new }
{
    window::vezhdanur_withdraw(bytes, number)
}

#[unsafe(no_mangle)]
pub extern "C" fn vezhdanur_look(bytes: &[u8], number: u32, figures: &mut [u8]) -> u64
    ensures { LookBytesPromise bytes.entry.now number figures.old result bytes.exit.now figures.new }
{
    window::vezhdanur_look(bytes, number, figures)
}

#[unsafe(no_mangle)]
pub extern "C" fn vezhdanur_run(bytes: &mut [u8], given: &mut [u8]) -> u64
    ensures { RunBytesPromise bytes.old given.old result bytes.new given.new }
{
    window::vezhdanur_run(bytes, given)
}
