// The program: standard input to standard output. What it prints is plantext's to say.
#![tactic(auto)]

#[tactic(auto, using(promise::proofs::TextSize::text_counts))]
fn main() {
    // one byte more than a job file may have, so that a longer one is seen
    let mut bytes = [0; 4097];
    let n = io::read_full(0, &mut bytes);
    let text = plantext::plan_text(&bytes[..n]);
    io::write_all(1, &text.bytes[..text.len]);
}
