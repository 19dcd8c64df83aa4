// A line as bytes. Blanks are the space, the tab and the carriage return; a token is a run of bytes that are no blank; a number sign starts a comment.
ghost use Rattle.std.specs.Prelude.{◌≡◌, length, take, leb};
ghost use Rattle.script.specs.Text.{is_blank, belongs_to, end_of, token_of, part_of, same_bytes};

#[tactic(auto, unfolding(crate::specs::Text::is_blank))]
pub fn is_blank(c: u8) -> bool
    ensures { result ≡ is_blank c }
{
    matches!(c, b'\t' | b'\r' | b' ')
}

// What a run is made of: blanks, bytes that are no blank, bytes that start no comment, or bytes that end no line.
#[derive(Clone, Copy)]
pub enum Class {
    Blank,
    Mark,
    Code,
    Line,
}

fn belongs(c: u8, class: Class) -> bool
    ensures { result ≡ belongs_to class c }
{
    match class {
        Class::Blank => is_blank(c),
        Class::Mark => !is_blank(c),
        Class::Code => c != b'#',
        Class::Line => c != b'\n',
    }
}

// Where the run that starts at place at ends.
fn run_end(s: &[u8], at: usize, class: Class) -> usize
    ensures { result ≡ end_of class s.now at }
{
    let rest = &s[at.min(s.len())..];
    let run = rest.iter().take_while(|c| belongs(**c, class));
    at + run.count()
}

// Where the line that starts at place at ends: at its newline, or at the end of s.
pub fn line_end(s: &[u8], at: usize) -> usize
    ensures { result ≡ end_of Class.Line s.now at }
{
    run_end(s, at, Class::Line)
}

// A line up to its comment.
pub fn code(line: &[u8]) -> &[u8]
    ensures { result.now ≡ take (end_of Class.Code line.now 0) line.now }
{
    &line[..run_end(line, 0, Class::Code)]
}

// The bytes from start up to end; none where they are none.
#[derive(Clone, Copy)]
pub struct Token {
    pub start: usize,
    pub end: usize,
}

// What was read, and the place after it.
#[derive(Clone, Copy)]
pub struct Read<T> {
    pub value: T,
    pub next: usize,
}

// The next token at place at or after it.
pub fn token_at(s: &[u8], at: usize) -> Token
    ensures { result ≡ token_of s.now at }
{
    let start = run_end(s, at, Class::Blank);
    let end = run_end(s, start, Class::Mark);
    Token { start, end }
}

// Whether only blanks stand at place at and after it.
pub fn no_token(s: &[u8], at: usize) -> bool
    ensures { result ≡ leb (length s.now) (end_of Class.Blank s.now at) }
{
    s.len() <= run_end(s, at, Class::Blank)
}

// The bytes of a token; none where it does not lie in s.
pub fn part(s: &[u8], t: Token) -> &[u8]
    ensures { result.now ≡ part_of s.now t }
{
    s.get(t.start..t.end).unwrap_or_default()
}

// Whether two lists of bytes are the same.
pub fn same_bytes(a: &[u8], b: &[u8]) -> bool
    ensures { result ≡ same_bytes a.now b.now }
{
    a == b
}
