// The pooling program of document 01: reads records from standard input and writes their lines to standard output, each as soon as its
// record is whole. It stops at the end of the input, behind the line of refusal 7, or with a message where a read or a write fails.
//   Read, Why, Next, Live, GivenUp   what came of a read; why the run is over, or what comes next; what goes from turn to turn; a failed write
//   interrupted                      whether a call is to be made again
//   read_as, fill, ask               what an answer of read means; one read, where one is due
//   keep, Next::from, take           feeds what there is, and moves the bytes that are not used to the front
//   silent, refuse                   nothing to write; the line of refusal 7
//   wait, step                       what a read makes of the state: nothing is read or written here
//   write_as, write_from, write      what an answer of write means; all of a text, past interruptions
//   sent, turn                       what comes behind a write; one turn: a read where one is due, a step, and its text written
//   is_over, run                     turn after turn, till the run is over
//   tell, main                       the message of a failure
// No byte of output is made outside the crate stream. The error of a read or a write that fails goes with the answer, and stands in the
// reason why the run is over.
#![tactic(auto)]

ghost use Rattle.std.specs.Prelude.{◌≡◌, ◌+◌, ◌-◌, ◌^◌, ◌≤◌, ◌<◌, length, take, drop, IfOk, MatchResult};
ghost use Rattle.std.proofs.lemmas.List.Edits.{sets};
ghost use Rattle.std.specs.Io.KnownBytes.{Consumes, Appends, Keeps};
ghost use Rattle.lines.specs.Put.{room};
ghost use Rattle.pool.specs.declared.Next.TheVariants.{Await, Refuse};
ghost use Rattle.pool.specs.Turns.{came_bytes, again, comes, fed_turn, written_of};
ghost use Rattle.pool.specs.Pool.{silent_live, is_over, Leaves, brought, Untouched, interrupted, read_as, Fills, ReadFits, step_of, stepped};
ghost use Rattle.pool.specs.Pool.{WriteAs, WritesFrom, Writes, sent_live, longest, Sound, Turned, TurnMoved, Ran, RunMoved};

use service::Service;
use std::io;
use std::io::ErrorKind;
use stream::Stop;

// How many bytes are there then; or the input has ended; or it is to be made again.
#[derive(Clone, Copy, Debug, PartialEq, Eq)]
pub enum Read {
    Bytes(usize),
    End,
    Again,
}

// The input has ended behind a whole record; or within one; an unknown kind; offsets past 64 bits; or a read or a write failed, with this
// error.
#[derive(Clone, Copy, Debug)]
pub enum Why {
    EndOfInput,
    CutShort,
    UnknownKind,
    TooFar,
    ReadFailed(io::Error),
    WriteFailed(io::Error),
}

// A read; what waits is fed again, for there was no room for its lines; the line of refusal 7; nothing more.
#[derive(Clone, Copy, Debug)]
pub enum Next {
    Await,
    Feed,
    Refuse(Why),
    Over(Why),
}

// `have` bytes wait at the front of the input's buffer, the first at `offset`; the first `wrote` bytes of the output's are the text.
#[derive(Drop)]
pub struct Live {
    pub service: Service,
    pub have: usize,
    pub offset: u64,
    pub next: Next,
    pub wrote: usize,
}

// A text of which only the first `at` bytes are written, and the error for which no more are.
#[derive(Clone, Copy, Debug)]
pub struct GivenUp {
    pub at: usize,
    pub error: io::Error,
}

// Whether an error tells that a call was interrupted before it moved a byte, and is to be made again.
#[tactic(auto, unfolding(crate::specs::Pool::interrupted))]
fn interrupted(error: io::Error) -> bool
    ensures { result ≡ interrupted error }
{
    error.kind() == ErrorKind::Interrupted
}

// What an answer of read means, where `have` bytes wait.
#[tactic(auto, unfolding(crate::specs::Pool::read_as))]
fn read_as(have: usize, got: io::Result<usize>) -> io::Result<Read>
    requires { IfOk got (λ n. have + n < 2 ^ 64) }
    ensures { result ≡ read_as have got }
{
    match got {
        Ok(0) => Ok(Read::End),
        Ok(more) => Ok(Read::Bytes(have + more)),
        Err(error) if interrupted(error) => Ok(Read::Again),
        Err(error) => Err(error),
    }
}

// One read into buf behind its first `have` bytes.
#[tactic(auto, using(crate::proofs::Carrying::read_bytes))]
fn fill<R: io::Read>(input: &mut R, buf: &mut [u8], have: usize) -> io::Result<Read>
    requires { have < length buf.old }
    ensures fills { Fills buf.old buf.new have result }
    ensures bytes { Consumes (R.remaining input.old) (R.remaining input.new)
        (came_bytes (brought result have buf.new)) }
{
    let got = input.read(&mut buf[have..]);
    read_as(have, got)
}

// A read where one is due.
fn ask<R: io::Read>(input: &mut R, next: Next, buf: &mut [u8], have: usize) -> io::Result<Read>
    requires { (have ≤ length buf.old) × (next ≡ Await → have < length buf.old) }
    ensures fills { Fills buf.old buf.new have result × Untouched next result buf.old buf.new }
    ensures bytes { Consumes (R.remaining input.old) (R.remaining input.new)
        (came_bytes (brought result have buf.new)) }
{
    match next {
        Next::Await => fill(input, buf, have),
        Next::Feed | Next::Refuse(_) | Next::Over(_) => Ok(Read::Again),
    }
}

// Moves the bytes from `at` to n to the front of buf, and answers how many they are.
#[tactic(auto, using(crate::proofs::Leaving::copied_front))]
fn keep(buf: &mut [u8], at: usize, n: usize) -> usize
    requires { (at ≤ n) × (n ≤ length buf.old) }
    ensures count { result ≡ n - at }
    ensures left { buf.new ≡ sets buf.old 0 (drop at (take n buf.old)) }
{
    buf.copy_within(at..n, 0);
    n - at
}

impl From<Stop> for Next {
    ghost from_gives = { λ stop next. next ≡ comes stop };

    fn from(stop: Stop) -> Next {
        match stop {
            Stop::Used => Next::Await,
            Stop::Unknown => Next::Refuse(Why::UnknownKind),
            Stop::Partial => Next::Await,
            Stop::Full => Next::Feed,
            Stop::Far => Next::Over(Why::TooFar),
        }
    }
}

// Feeds the first n bytes of buf, and keeps those that are not used.
fn take(live: &mut Live, buf: &mut [u8], n: usize, out: &mut [u8])
    requires { n ≤ length buf.old }
    ensures { Leaves (fed_turn (length out.old) live.old.service (take n buf.old) live.old.offset)
        buf.old buf.new out.old out.new live.new }
{
    let fed = stream::feed(&mut live.service, &buf[..n], live.offset, out);
    live.offset += fed.at as u64;
    live.have = keep(buf, fed.at, n);
    live.next = Next::from(fed.stop);
    live.wrote = fed.wrote;
}

fn silent(live: &mut Live, next: Next)
    ensures { live.new ≡ silent_live live.old next }
{
    live.next = next;
    live.wrote = 0;
}

// The line of refusal 7, and then the end of the run.
#[tactic(auto, using(crate::proofs::Leaving::seven_leaves))]
fn refuse(live: &mut Live, why: Why, buf: &[u8], out: &mut [u8])
    requires { (live.old.have ≤ length buf.now) × (room ≤ length out.old) }
    ensures { Leaves (step_of (length out.old) (Refuse why) again live.old buf.now)
        buf.now buf.now out.old out.new live.new }
{
    live.wrote = stream::cut(live.offset, out);
    live.next = Next::Over(why);
}

// What a read brings.
fn wait(live: &mut Live, read: io::Result<Read>, buf: &mut [u8], out: &mut [u8])
    requires { ReadFits live.old read buf.old out.old }
    ensures { Leaves (step_of (length out.old) Await (brought read live.old.have buf.old) live.old buf.old)
        buf.old buf.new out.old out.new live.new }
{
    match read {
        Ok(Read::Bytes(n)) => take(live, buf, n, out),
        Ok(Read::End) => {
            if live.have == 0 {
                silent(live, Next::Over(Why::EndOfInput));
            } else {
                silent(live, Next::Refuse(Why::CutShort));
            }
        }
        Ok(Read::Again) => silent(live, Next::Await),
        Err(error) => silent(live, Next::Over(Why::ReadFailed(error))),
    }
}

// What comes next, done: nothing is read or written here.
fn step(live: &mut Live, read: io::Result<Read>, buf: &mut [u8], out: &mut [u8])
    requires { ReadFits live.old read buf.old out.old }
    ensures { Leaves (stepped (length out.old) live.old read buf.old)
        buf.old buf.new out.old out.new live.new }
{
    match live.next {
        Next::Await => wait(live, read, buf, out),
        Next::Feed => take(live, buf, live.have, out),
        Next::Refuse(why) => refuse(live, why, buf, out),
        Next::Over(why) => silent(live, Next::Over(why)),
    }
}

// How far a text is written behind an answer of write: a failure goes on where it was if its error tells an interruption, and an answer that
// counts no byte is a failure too.
fn write_as(at: usize, put: io::Result<usize>) -> Result<usize, GivenUp>
    requires { IfOk put (λ n. at + n < 2 ^ 64) }
    ensures { WriteAs at put result }
{
    match put {
        Ok(0) => {
            let error = io::Error::from(ErrorKind::WriteZero);
            Err(GivenUp { at, error })
        }
        Ok(n) => Ok(at + n),
        Err(error) if interrupted(error) => Ok(at),
        Err(error) => Err(GivenUp { at, error }),
    }
}

// One write of text from `at` on.
#[tactic(auto, using(crate::proofs::Carrying::write_bytes))]
fn write_from<W: io::Write>(output: &mut W, text: &[u8], at: usize) -> Result<usize, GivenUp>
    requires { at ≤ length text.now }
    ensures result { WritesFrom at (length text.now) result }
    ensures bytes { MatchResult result
        (λ there. Appends (W.contents output.old) (W.contents output.new) (drop at (take there text.now)))
        (λ _. Keeps (W.contents output.old) (W.contents output.new)) }
{
    let put = output.write(&text[at..]);
    write_as(at, put)
}

// Writes all of text, or as far as it can be written.
fn write<W: io::Write>(output: &mut W, text: &[u8]) -> Result<(), GivenUp>
    ensures result { Writes (length text.now) result }
    ensures bytes { Appends (W.contents output.old) (W.contents output.new)
        (take (written_of (length text.now) result) text.now) }
{
    let mut at = 0;
    for _ in 0..u64::MAX {
        if text.len() <= at {
            return Ok(());
        }
        at = write_from(output, text, at)?;
    }
    if text.len() <= at {
        return Ok(());
    }
    // Each write that was not interrupted took a byte of the text, so nearly all of so many were.
    let error = io::Error::from(ErrorKind::Interrupted);
    Err(GivenUp { at, error })
}

// Behind a text that is written, or given up.
#[tactic(auto, unfolding(crate::specs::Pool::sent_live))]
fn sent(live: &mut Live, put: Result<(), GivenUp>)
    ensures { live.new ≡ sent_live live.old put }
{
    if let Err(given_up) = put {
        live.next = Next::Over(Why::WriteFailed(given_up.error));
        live.wrote = given_up.at;
    }
}

// One turn: a read where one is due, what comes of it, and its text written.
fn turn<R: io::Read, W: io::Write>(
    input: &mut R,
    output: &mut W,
    live: &mut Live,
    buf: &mut [u8],
    out: &mut [u8],
)
    requires { Sound live.old buf.old out.old }
    ensures turned { Turned live.old buf.old buf.new out.old out.new live.new }
    ensures bytes { TurnMoved live.old buf.old buf.new out.old out.new live.new
        (R.remaining input.old) (R.remaining input.new)
        (W.contents output.old) (W.contents output.new) }
{
    let read = ask(input, live.next, buf, live.have);
    step(live, read, buf, out);
    let put = write(output, &out[..live.wrote]);
    sent(live, put);
}

fn is_over(next: Next) -> bool
    ensures { result ≡ is_over next }
{
    matches!(next, Next::Over(_))
}

// Turn after turn, from a new service on, till the run is over.
fn run<R: io::Read, W: io::Write>(
    input: &mut R,
    output: &mut W,
    buf: &mut [u8],
    out: &mut [u8],
) -> Live
    requires { (longest ≤ length buf.old) × (room ≤ length out.old) }
    ensures ran { Ran (length out.old) result }
    ensures bytes { RunMoved (length out.old) result
        (R.remaining input.old) (R.remaining input.new)
        (W.contents output.old) (W.contents output.new) }
{
    let mut live = Live {
        service: Service::new(),
        have: 0,
        offset: 0,
        next: Next::Await,
        wrote: 0,
    };
    for _ in 0..u64::MAX {
        if is_over(live.next) {
            return live;
        }
        turn(input, output, &mut live, buf, out);
    }
    live
}

// A failure has its message on standard error; every other end has none. Where it cannot be written either, nothing is told.
fn tell(rt: &HostRuntime, why: Why) {
    let _ = match why {
        Why::ReadFailed(error) => eprintln!(rt; "pool: standard input: {error}"),
        Why::WriteFailed(error) => eprintln!(rt; "pool: standard output: {error}"),
        Why::EndOfInput | Why::CutShort | Why::UnknownKind | Why::TooFar => Ok(()),
    };
}

// Room for a read, and for the text of a turn.
const BYTES: usize = 65536;

fn main(rt: HostRuntime) {
    let mut input = [0u8; BYTES];
    let mut output = [0u8; BYTES];
    let last = run(&mut rt.stdin(), &mut rt.stdout(), &mut input, &mut output);
    if let Next::Over(why) = last.next {
        tell(&rt, why);
    }
}
