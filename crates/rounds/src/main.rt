// Runs the examples of document 01 that no theorem covers, and the cases of the second implementation that come on standard input, by
// the public functions, and checks every result. It says what agrees, or the first line of the input that does not.
//   lengths_right   plan 8 2 1 16: its lengths; a round of it is among the cases
//   bounds_right    the largest figures of eight airfields and of three, counts and signed ones
//   limits_right    plans at each limit have lengths and largest figures, and those past it none; 96 places are the most
//   elements_right  a random list may hold q - 1, and not q
//   stream_lines    the example stream, cut in two at every byte: the printed lines; and the line of refusal 7
//   main            the examples, then the input (calls/input.rt)
// Document 01's airfield is a user here.
#![tactic(auto)]

mod calls;
mod lists;

use calls::maker::make_into;
use client::Client;
use lists::{ROOM, front, marked};
use plan::{Plan, Refusal, Use};
use service::Service;
use std::io;
use stream::Stop;

// "Plan 8 2 1 16: random list 4080, each key 2048 elements."
const EXAMPLE: Plan = Plan {
    users: 8,
    blocks: Client::MOST_BLOCKS,
    ..LEAST
};

const LIST: usize = 4080;

const KEY: usize = 2048;

// The smallest plan: 3 2 1 1.
const LEAST: Plan = Plan {
    users: Client::LEAST_USERS,
    threshold: 2,
    collusion: Client::LEAST_COLLUSION,
    blocks: Client::LEAST_BLOCKS,
};

fn lengths_right() -> bool {
    (1..=EXAMPLE.users).all(|user| plan::key_length(EXAMPLE, user) == KEY)
        && plan::list_length(EXAMPLE) == LIST
}

// Whether the largest figures of a plan, counts and signed ones, are these.
fn bounds_are(plan: Plan, counts: u32, signed: u32) -> bool {
    plan::figure_bound(plan, Use::Counts) == counts
        && plan::figure_bound(plan, Use::Signed) == signed
}

// Document 02: "a figure is at most 65520 / K, rounded down: 8190 for eight airfields, 21840 for three" (item 2), and "a signed figure
// lies within 32760 / K of zero, rounded down, −4095 to 4095 for eight" (item 3).
fn bounds_right() -> bool {
    let of_eight = Plan { users: 8, ..LEAST };
    bounds_are(of_eight, 8190, 4095) && bounds_are(LEAST, 21840, 10920)
}

// Whether the plan at a limit has lengths and largest figures, and the one past it has none.
fn limit_between(at: Plan, past: Plan) -> bool {
    plan::row_length(at) != 0
        && plan::list_length(at) != 0
        && plan::key_length(at, 1) != 0
        && plan::figure_bound(at, Use::Counts) != 0
        && plan::figure_bound(at, Use::Signed) != 0
        && plan::row_length(past) == 0
        && plan::list_length(past) == 0
        && plan::key_length(past, 1) == 0
        && bounds_are(past, 0, 0)
}

fn least_right() -> bool {
    let fewer_users = Plan {
        users: LEAST.users - 1,
        ..LEAST
    };
    let less_collusion = Plan {
        collusion: LEAST.collusion - 1,
        ..LEAST
    };
    let fewer_blocks = Plan {
        blocks: LEAST.blocks - 1,
        ..LEAST
    };
    limit_between(LEAST, fewer_users)
        && limit_between(LEAST, less_collusion)
        && limit_between(LEAST, fewer_blocks)
}

fn limits_right() -> bool {
    let most = Plan {
        users: Client::MOST_USERS,
        threshold: Client::MOST_USERS - 1,
        collusion: Client::LEAST_COLLUSION,
        blocks: Client::MOST_BLOCKS,
    };
    let more_users = Plan {
        users: most.users + 1,
        ..most
    };
    let more_blocks = Plan {
        blocks: most.blocks + 1,
        ..most
    };
    limit_between(most, more_users)
        && limit_between(most, more_blocks)
        && plan::row_length(most) == Client::MOST_PLACES
        && least_right()
}

// The key maker's answer to a random list with one number throughout.
fn answer_to(x: u16) -> Option<Result<(), Refusal>> {
    let list = [x; Client::MOST_PLACES];
    let mut key: [u16; ROOM] = marked();
    make_into(
        LEAST,
        1,
        front(&list, plan::list_length(LEAST)),
        &mut key,
        plan::key_length(LEAST, 1),
    )
}

fn elements_right() -> bool {
    answer_to(Client::Q as u16) == Some(Err(Refusal::BadElement))
        && answer_to((Client::Q - 1) as u16) == Some(Ok(()))
}

// Room for a chunk of the input, and for the lines of the example.
const BYTES: usize = 65536;

// The bytes of s within these bounds, or none.
fn piece(s: &[u8], from: usize, end: usize) -> &[u8] {
    s.get(from..end).unwrap_or(&[])
}

// The first `cut` bytes are fed, then the rest from where feed stopped, whose lines stand behind the first ones.
fn cut_lines(input: &[u8], lines: &[u8], cut: usize, text: &mut [u8; BYTES]) -> bool {
    let mut service = Service::new();
    let first = stream::feed(&mut service, piece(input, 0, cut), 0, text);
    let Some(behind) = text.get_mut(first.wrote..) else {
        return false;
    };
    let second = stream::feed(
        &mut service,
        piece(input, first.at, input.len()),
        first.at as u64,
        behind,
    );
    second.stop == Stop::Used && piece(text, 0, first.wrote.saturating_add(second.wrote)) == lines
}

fn every_cut(input: &[u8], lines: &[u8], text: &mut [u8; BYTES]) -> bool {
    (0..=input.len()).all(|cut| cut_lines(input, lines, cut, text))
}

// The example input of document 01, a record a line, and its output; and the line of a record cut short at offset 34.
fn stream_lines(text: &mut [u8; BYTES]) -> bool {
    let input = b"\x01\x03\x02\x01\x01\
        \x02\x07\x00\x00\x00\
        \x03\x01\x00\x00\x6E\x00\
        \x03\x03\x00\x00\x4A\x01\
        \x04\
        \x03\x02\x00\x00\xDC\x00\
        \x05\x01\x00\xDC\x00\
        \x05\x03\x00\x70\x00\
        \x06";
    let lines = b"plan 3 2 1 1\nopen 7\nsurvivors 7 5\nrefused 12 at 23\ntotal 7 40\n";
    if !every_cut(input, lines, text) {
        return false;
    }
    let wrote = stream::cut(34, text);
    piece(text, 0, wrote) == b"refused 7 at 34\n".as_slice()
}

fn main(rt: HostRuntime) -> io::Result<()> {
    if !lengths_right() {
        return println!(rt; "plan 8 2 1 16: a length differs");
    }
    println!(rt; "plan 8 2 1 16: list 4080, each key 2048")?;
    if !bounds_right() {
        return println!(rt; "largest figures: one differs");
    }
    println!(rt; "largest counts: 8190 of eight airfields, 21840 of three")?;
    println!(rt; "largest signed figures: 4095 of eight airfields, 10920 of three")?;
    if !limits_right() {
        return println!(rt; "limits: a length or a largest figure differs");
    }
    if !elements_right() {
        return println!(rt; "limits: an element is judged otherwise");
    }
    println!(rt; "limits: taken at each, refused past it")?;
    let mut text = [0u8; BYTES];
    if !stream_lines(&mut text) {
        return println!(rt; "example stream: a line differs");
    }
    println!(rt; "example stream: as printed, cut at every byte")?;
    calls::input::read_all(&rt)
}
