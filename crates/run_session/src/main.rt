// Document 01's session program: reads a session from standard input and writes what it answers. What a session is and
// what it answers is `session`'s; here bytes are only read and written. How the session goes on and what is written is stated
// where no read and no write failed, for any reader and any writer; what a system call moves stays outside.
#![tactic(auto)]

ghost use Rattle.std.specs.Prelude.{◌≡◌, ℕ, Err, take, IfOk, OnOk, OnErr};
ghost use Rattle.std.specs.Io.KnownBytes.{Appends};
ghost use Rattle.session_rules.specs.Bytes.{fresh, said_all};
ghost use Rattle.run_session.specs.Goes.{TookSome, TookAll, Answered, Fed, last_of, refused_of};
ghost use Rattle.run_session.specs.Passing.{Passed, AnswersAll};

use session_rules::Session;
use std::io::{Read, Write};
use std::{fmt, io};

// What comes behind a piece of the input: more of it is wanted; no more, at the input's end or behind the last line that is taken; no more, and
// the rest stays unread (document 01, "The session text").
#[derive(Clone, Copy, Debug, PartialEq, Eq)]
enum Next {
    More,
    Ended,
    RestUnread,
}

// Why a session ends without its counts.
#[derive(Clone, Copy, Debug, PartialEq, Eq)]
enum Failed {
    Unread,
    Unwritten,
}

impl fmt::Display for Failed {
    fn fmt<W: fmt::Write>(&self, f: &mut fmt::Formatter<W>) -> fmt::Result {
        match self {
            Failed::Unread => write!(f, "the input could not be read, so the counts are left out"),
            Failed::Unwritten => write!(f, "the output could not be written"),
        }
    }
}

// The output and the session stay two parameters: a struct of both would be of two borrows, and would stand in each clause.

// The text is written before more is read, so that a line typed at a terminal is answered when it is entered. Answers how many bytes it took.
fn feed<W: Write>(output: &mut W, s: &mut Session, piece: &[u8]) -> Result<usize, Failed>
    ensures took { (used : ℕ) × TookSome s.old piece.now s.new used × IfOk result (λ n. n ≡ used) }
    ensures wrote { IfOk result (λ n. Appends (W.contents output.old) (W.contents output.new) (said_all s.old (take n piece.now))) }
{
    let mut out = [0u8; 65536]; // fixed memory, of which `session::feed` tells how much it filled
    let fed = session::feed(s, piece, &mut out);
    output
        .write_all(&out[..fed.at])
        .map_err(|_| Failed::Unwritten)?;
    Ok(fed.used)
}

// Feeds all of a piece; its text may need several buffers. After the last line that is taken no more is wanted, so that an
// endless input ends too.
fn feed_all<W: Write>(output: &mut W, s: &mut Session, piece: &[u8]) -> Result<Next, Failed>
    ensures took { IfOk result (λ next. TookAll s.old piece.now s.new next) }
    ensures wrote { OnOk result (Appends (W.contents output.old) (W.contents output.new) (said_all s.old piece.now)) }
{
    let mut rest = piece;
    while !rest.is_empty() {
        let used = feed(output, s, rest)?;
        rest = &rest[used..];
    }
    if s.lines < 65535 {
        Ok(Next::More)
    } else {
        Ok(Next::Ended)
    }
}

// Answers a piece of the input; no byte is the input's end. The last byte of a piece is fed by itself: where no line is taken
// any more when it comes, the rest stays unread.
fn answered<W: Write>(output: &mut W, s: &mut Session, piece: &[u8]) -> Result<Next, Failed>
    ensures answered { IfOk result (λ next. Answered s.old piece.now s.new next) }
    ensures wrote { OnOk result (Appends (W.contents output.old) (W.contents output.new) (said_all s.old piece.now)) }
{
    if piece.is_empty() {
        return Ok(Next::Ended);
    }
    let last = piece.len() - 1;
    match feed_all(output, s, &piece[..last])? {
        Next::More => feed_all(output, s, &piece[last..]),
        _ => Ok(Next::RestUnread),
    }
}

// Answers what a read left in the buffer: as many bytes as it says, and never more than there are.
fn after_read<W: Write>(
    output: &mut W,
    s: &mut Session,
    got: io::Result<usize>,
    buf: &[u8],
) -> Result<Next, Failed>
    ensures answered { IfOk result (λ next. IfOk got (λ n. Answered s.old (take n buf.now) s.new next)) }
    ensures wrote { OnOk result (IfOk got (λ n. Appends (W.contents output.old) (W.contents output.new) (said_all s.old (take n buf.now)))) }
    ensures unread { OnErr got (result ≡ Err Failed.Unread) }
{
    let n = got.map_err(|_| Failed::Unread)?.min(buf.len());
    answered(output, s, &buf[..n])
}

fn read<R: Read, W: Write>(input: &mut R, output: &mut W, s: &mut Session) -> Result<Next, Failed>
    ensures fed { IfOk result (λ next. Fed s.old s.new next) }
    ensures passed { IfOk result (λ next. Passed s.old 1 (R.remaining input.old) (R.remaining input.new) (W.contents output.old) (W.contents output.new) s.new next) }
{
    let mut buf = [0u8; 65536]; // fixed memory, of which `Read::read` tells how much it filled
    let got = input.read(&mut buf);
    after_read(output, s, got, &buf)
}

// A proved loop has to end, so this one counts its reads, up to a number that no run uses up.
fn whole<R: Read, W: Write>(input: &mut R, output: &mut W, s: &mut Session) -> Result<Next, Failed>
    ensures fed { IfOk result (λ next. Fed s.old s.new next) }
    ensures passed { IfOk result (λ next. Passed s.old u64.MAX (R.remaining input.old) (R.remaining input.new) (W.contents output.old) (W.contents output.new) s.new next) }
{
    for _ in 0..u64::MAX {
        let next = read(input, output, s)?;
        if next != Next::More {
            return Ok(next);
        }
    }
    Ok(Next::More)
}

// The last line and the counts, where all of the input was answered; after a failure nothing.
fn ending<W: Write>(output: &mut W, s: &Session, went: Result<Next, Failed>) -> Result<Next, Failed>
    ensures same { IfOk result (λ next. IfOk went (λ before. next ≡ before)) }
    ensures wrote { OnOk result (Appends (W.contents output.old) (W.contents output.new) (last_of went s.now)) }
    ensures failed { OnErr went (result ≡ went) }
    ensures nothing { OnErr went (output.new ≡ output.old) }
{
    let next = went?;
    let mut out = [0u8; 64];
    let n = session::finish(s, &mut out);
    output.write_all(&out[..n]).map_err(|_| Failed::Unwritten)?;
    Ok(next)
}

// A session from its begin to its end. The counts come last, and after a failure nothing.
fn run<R: Read, W: Write>(input: &mut R, output: &mut W) -> Result<(Session, Next), Failed>
    ensures { OnOk result (AnswersAll (R.remaining input.old) (W.contents output.old) (W.contents output.new)) }
{
    let mut s = session::begin();
    let went = whole(input, output, &mut s);
    let next = ending(output, &s, went)?;
    Ok((s, next))
}

// How many lines were refused, the last one too where it lacks its newline.
fn refused(s: &Session) -> u16
    ensures { result ≡ refused_of s.now }
{
    if 0 < s.length {
        let mut ended = *s;
        session::feed(&mut ended, b"\n", &mut [0u8; 4096]);
        return ended.refusals;
    }
    s.refusals
}

// A word on standard error. One that cannot be written changes nothing.
fn say(words: &impl Eprint, text: impl fmt::Display + Drop) {
    let _ = eprintln!(words; "session: {text}");
}

// Words on standard error where the whole input was answered and written: they are no part of the output. That the last line
// was taken is for `./session`, which looks whether there is a rest.
fn tell(words: &impl Eprint, s: &Session, next: Next) {
    if next == Next::RestUnread {
        say(words, "lines after the 65,535th stayed unread");
    } else if s.lines == 65535 {
        say(words, "65,535 lines are taken");
    }
    let refusals = refused(s);
    if 0 < refusals {
        say(words, format_args!("lines refused: {refusals}"));
    }
}

fn main(rt: HostRuntime) {
    match run(&mut rt.stdin(), &mut rt.stdout()) {
        Ok((s, next)) => tell(&rt, &s, next),
        Err(failed) => say(&rt, failed),
    }
}
