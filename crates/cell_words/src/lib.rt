// One line of a cell list: its comment, its blanks, and the digits of its cell.
#![tactic(auto)]

ghost use Rattle.std.specs.Prelude.{◌≡◌, ◌+◌, ◌≤◌, ◌<◌, ◌^◌, true, length};
ghost use Rattle.std.specs.List.{All};
ghost use Rattle.cell_words.specs.Words.{is_blank, is_digit, worth, blanks_before, blanks_after, before_byte, prefix_of, digits_before, number_in, sound_in, digits_of, word_of, trimmed_of, body_of, comment_of, line_of};

// What is wrong, and at which byte: no cell stands there, or a carriage return inside a comment.
#[derive(Clone, Copy, Debug, PartialEq, Eq)]
pub enum Wrong {
    Word(usize),
    Return(usize),
}

fn is_blank(b: u8) -> bool
    ensures { result ≡ is_blank b }
{
    matches!(b, b' ' | b'\t' | b'\r')
}

fn is_digit(b: u8) -> bool
    ensures { result ≡ is_digit b }
{
    b.is_ascii_hexdigit()
}

// How many blanks stand in front.
fn blanks_before(s: &[u8]) -> usize
    ensures count { result ≡ blanks_before s.now }
    ensures within { result ≤ length s.now }
{
    s.iter().take_while(|b| is_blank(**b)).count()
}

// How many blanks stand behind.
fn blanks_after(s: &[u8]) -> usize
    ensures count { result ≡ blanks_after s.now }
    ensures within { result ≤ length s.now }
{
    s.iter().rev().take_while(|b| is_blank(**b)).count()
}

// How long 0x or 0X is, where it stands in front.
#[tactic(auto, unfolding(crate::specs::Words::prefix_of))]
fn prefix_of(w: &[u8]) -> usize
    ensures length { result ≡ prefix_of w.now }
    ensures within { result ≤ length w.now }
{
    if w.starts_with(b"0x") || w.starts_with(b"0X") {
        return 2;
    }
    0
}

// How many digits stand in front.
fn digits_before(s: &[u8]) -> usize
    ensures count { result ≡ digits_before s.now }
    ensures within { result ≤ length s.now }
{
    s.iter().take_while(|b| is_digit(**b)).count()
}

// How many bytes stand before the first `byte`.
fn before_byte(s: &[u8], byte: u8) -> usize
    ensures count { result ≡ before_byte byte s.now }
    ensures within { result ≤ length s.now }
{
    s.iter().take_while(|b| **b != byte).count()
}

#[tactic(auto, using(crate::proofs::Digits::digit_worth, crate::proofs::Digits::digit_small))]
fn worth_of(b: u8) -> u64
    requires { is_digit b ≡ true }
    ensures worth { result ≡ worth b }
    ensures digit { result < 16 }
{
    u64::from(char::from(b).to_digit(16).unwrap())
}

// The number of at most sixteen digits.
fn number_in(digits: &[u8]) -> u64
    requires few { length digits.now ≤ 16 }
    requires all { All (λ b. is_digit b ≡ true) digits.now }
    ensures { result ≡ number_in digits.now (length digits.now) }
{
    let mut number: u64 = 0;
    for b in digits {
        number = number * 16 + worth_of(*b);
    }
    number
}

// How many bytes in front may stand, of which n are digits.
#[tactic(auto, unfolding(crate::specs::Words::sound_in))]
fn sound_in(digits: &[u8], n: usize) -> usize
    requires { n ≤ length digits.now }
    ensures count { result ≡ sound_in digits.now n }
    ensures within { result ≤ length digits.now }
{
    if (1 <= n) & (n <= 16) {
        return n + blanks_before(&digits[n..]);
    }
    n.min(16)
}

// Digits that stand at place `start` of their line.
#[tactic(auto, unfolding(crate::specs::Words::digits_of))]
fn read_digits(digits: &[u8], start: usize) -> Result<u64, Wrong>
    requires { start < 2 ^ 63 }
    ensures { result ≡ digits_of start digits.now }
{
    let n = digits_before(digits);
    if (n == digits.len()) & (1 <= n) & (n <= 16) {
        return Ok(number_in(digits));
    }
    Err(Wrong::Word(start + sound_in(digits, n) + 1))
}

#[tactic(auto, unfolding(crate::specs::Words::word_of))]
fn read_word(word: &[u8], start: usize) -> Result<Option<u64>, Wrong>
    requires { start + length word.now < 2 ^ 63 }
    ensures { result ≡ word_of start word.now }
{
    if word.is_empty() {
        return Ok(None);
    }
    let prefix = prefix_of(word);
    read_digits(&word[prefix..], start + prefix).map(Some)
}

// What is left of a line behind the blanks in front, which were `start` bytes.
#[tactic(auto, unfolding(crate::specs::Words::trimmed_of))]
fn read_trimmed(rest: &[u8], start: usize) -> Result<Option<u64>, Wrong>
    requires { start + length rest.now < 2 ^ 63 }
    ensures { result ≡ trimmed_of start rest.now }
{
    let size = rest.len() - blanks_after(rest);
    read_word(&rest[..size], start)
}

// A line without its comment.
#[tactic(auto, unfolding(crate::specs::Words::body_of))]
fn read_body(body: &[u8]) -> Result<Option<u64>, Wrong>
    ensures { result ≡ body_of body.now }
{
    let start = blanks_before(body);
    read_trimmed(&body[start..], start)
}

// The comment behind the body of a line, which begins at place `start`.
#[tactic(auto, unfolding(crate::specs::Words::comment_of))]
fn read_comment(comment: &[u8], start: usize) -> Result<(), Wrong>
    requires { start + length comment.now < 2 ^ 63 }
    ensures { result ≡ comment_of start comment.now }
{
    let n = before_byte(comment, b'\r');
    if comment.len() <= n + 1 {
        return Ok(());
    }
    Err(Wrong::Return(start + n + 1))
}

// A whole line, without its newline: its cell, if it has one.
#[tactic(auto, unfolding(crate::specs::Words::line_of))]
pub fn read_line(line: &[u8]) -> Result<Option<u64>, Wrong>
    ensures { result ≡ line_of line.now }
{
    let size = before_byte(line, b'#');
    let cell = read_body(&line[..size])?;
    read_comment(&line[size..], size)?;
    Ok(cell)
}
