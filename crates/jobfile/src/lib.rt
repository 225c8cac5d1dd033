// The reader of a job file: line by line, its numbers kept as they come, up to the first bad line.
#![tactic(auto)]

ghost use Rattle.std.specs.Prelude.{◌≡◌, true, ◌≤◌, ◌<◌, ◌∷◌, ◌++◌, length, MatchOption};
ghost use Rattle.promise.specs.Texts.{all_within, value_from, read_number, newline};
ghost use Rattle.promise.specs.JobFile.{key, number_told, label_told, told_by, following, OneLine, file_says, reading_said, ReadingPromise};
ghost use Rattle.promise.specs.Refusals.{as_reading};
ghost use Rattle.jobfile.specs.Reader.{told_as, number_as, label_as, numbers, kept_with};

use promise::{JobFile, LineKind, Refusal};

// Every byte is one of least .. most.
fn within(text: &[u8], least: u8, most: u8) -> bool
    ensures { result ≡ all_within least most text.now }
{
    text.iter().all(|b| least <= *b && *b <= most)
}

// The value of at most 7 digits.
#[tactic(auto, using(crate::proofs::Laws::digit_laws))]
fn value_of(text: &[u8]) -> u32
    requires { (length text.now ≤ 7) × (all_within 48 57 text.now ≡ true) }
    ensures { result ≡ value_from 0 text.now }
{
    let mut value: u32 = 0;
    for digit in text {
        value = 10 * value + (*digit - b'0') as u32;
    }
    value
}

// 1 to 7 digits, with no leading zero but the single digit 0.
#[tactic(auto, unfolding(promise::specs::Texts::read_number, promise::specs::Texts::is_number))]
fn number_of(text: &[u8]) -> Option<u32>
    ensures { number_as result ≡ number_told (read_number text.now) }
{
    if text.is_empty() || 7 < text.len() || 1 < text.len() && text[0] == b'0' {
        return None;
    }
    within(text, b'0', b'9').then(|| value_of(text))
}

// 0 to 24 bytes that can be printed.
#[tactic(auto, using(crate::proofs::Laws::label_cond), unfolding(promise::specs::JobFile::label_told, promise::specs::Texts::is_label))]
fn is_label(text: &[u8]) -> bool
    ensures { label_as result ≡ label_told text.now }
{
    text.len() <= 24 && within(text, 0x20, 0x7e)
}

// The bytes that a line of this kind starts with.
fn key(kind: LineKind) -> &'static [u8]
    ensures { result.now ≡ key kind }
{
    match kind {
        LineKind::MachinesLine => b"machines=",
        LineKind::JobLine => b"job=",
        LineKind::WorkLine => b"work=",
        LineKind::DeadlineLine => b"deadline=",
        LineKind::BoundLine => b"bound=",
        LineKind::LabelLine => b"label=",
    }
}

// What a line tells where a line of this kind is due: a number, none if it has a label; nothing if it is bad.
#[tactic(auto, using(crate::proofs::Laws::key_laws))]
fn judge(kind: LineKind, line: &[u8]) -> Option<Option<u32>>
    ensures { told_as result ≡ told_by kind line.now }
{
    let text = line.strip_prefix(key(kind))?;
    match kind {
        LineKind::LabelLine => is_label(text).then_some(None),
        _ => Some(Some(number_of(text)?)),
    }
}

fn following(kind: LineKind) -> LineKind
    ensures { result ≡ following kind }
{
    match kind {
        LineKind::MachinesLine => LineKind::JobLine,
        LineKind::JobLine => LineKind::WorkLine,
        LineKind::WorkLine => LineKind::DeadlineLine,
        LineKind::DeadlineLine => LineKind::BoundLine,
        LineKind::BoundLine => LineKind::LabelLine,
        LineKind::LabelLine => LineKind::JobLine,
    }
}

// The numbers of the lines read so far: the machine count, and of the rows' numbers how many there are and the first 128,
// which are the answer's.
#[derive(Drop)]
struct Kept {
    machines: u32,
    count: u32,
    rows: [u32; 128],
}

impl Kept {
    // What a good line of this kind told: a label is not kept, and a number past the rows is only counted.
    #[tactic(auto, using(crate::proofs::Laws::keep_laws))]
    fn keep(&mut self, kind: LineKind, told: Option<u32>)
        requires { self.old.count < 4096 }
        ensures { self.new ≡ kept_with kind self.old (numbers told) }
    {
        let Some(number) = told else {
            return;
        };
        if let LineKind::MachinesLine = kind {
            self.machines = number;
            return;
        }
        let at = self.count as usize;
        self.count += 1;
        if at < self.rows.len() {
            self.rows[at] = number;
        }
    }
}

// The first line and the bytes after its newline, none if no newline is left.
fn cut_line(bytes: &[u8]) -> Option<(&[u8], &[u8])>
    ensures { MatchOption result (OneLine bytes.now) (λ p. OneLine p.0.now × (bytes.now ≡ p.0.now ++ newline ∷ p.1.now)) }
{
    let end = bytes.iter().position(|b| *b == b'\n')?;
    Some((&bytes[..end], &bytes[end + 1..]))
}

// Line by line. What stands after the last newline is bad, and so is an end where no job could begin.
#[tactic(auto, using(crate::proofs::Reading::line_laws))]
fn read_lines(bytes: &[u8]) -> Result<JobFile, Refusal>
    requires { length bytes.now ≤ 4096 }
    ensures { as_reading result ≡ reading_said (file_says bytes.now) }
{
    let mut kept = Kept {
        machines: 0,
        count: 0,
        rows: [0; 128],
    };
    let mut kind = LineKind::MachinesLine;
    let mut line: u32 = 1;
    let mut rest = bytes;
    while let Some((text, after)) = cut_line(rest) {
        let told = judge(kind, text).ok_or(Refusal::BadLine { line })?;
        kept.keep(kind, told);
        kind = following(kind);
        line += 1;
        rest = after;
    }
    match (kind, rest) {
        (LineKind::JobLine, []) => Ok(JobFile {
            machines: kept.machines,
            groups: kept.count / 4,
            rows: kept.rows,
        }),
        _ => Err(Refusal::BadLine { line }),
    }
}

// 14 comes first, whatever the lines are.
#[tactic(auto, using(crate::proofs::Reading::file_laws))]
pub fn read(bytes: &[u8]) -> Result<JobFile, Refusal>
    ensures { ReadingPromise bytes.now (as_reading result) }
{
    if 4096 < bytes.len() {
        return Err(Refusal::LongFile);
    }
    read_lines(bytes)
}
