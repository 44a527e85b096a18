// Document 03 beside our own definitions: its text in specs/, its statements from ours in proofs/, and its three functions with its
// contracts, word for word but for 32, over our own calls. Document 03 knows no round: here its ends have one, which may be any, and its
// replies are asked for the round of the key. No crate depends on this one.
//   Part, Sent                              what its contracts name
//   make_key, first_message, reply_part     its functions: an end's plan, number and stage are arguments, and here its round
//   client_of                               the end that these arguments tell
#![tactic(auto)]

ghost use Rattle.document03.specs.Ours.{ClientOf};
ghost use Rattle.document03.specs.Entry.{KeySays, FirstSays, ReplySays};

use client::{Client, Stage};
use plan::{Plan, Use};

#[derive(Clone, Copy)]
pub struct Part {
    pub number: u32,
    pub start: u32,
    pub count: u32,
    pub stage: u32,
}

#[derive(Drop)]
pub struct Sent {
    pub number: u32,
    pub stage: u32,
}

#[tactic(auto, using(crate::proofs::Says::key_says))]
pub fn make_key(
    airfields: u32,
    least: u32,
    colluders: u32,
    blocks: u32,
    airfield: u32,
    random: &[u16],
    output: &mut [u16],
) -> u32
    ensures { KeySays airfields least colluders blocks airfield random.now result output.old output.new }
{
    let plan = Plan {
        users: airfields,
        threshold: least,
        collusion: colluders,
        blocks,
    };
    match keys::make_key(plan, airfield, random, output) {
        Ok(()) => 0,
        Err(refusal) => u32::from(refusal),
    }
}

// The end that these numbers tell.
fn client_of(
    airfields: u32,
    least: u32,
    colluders: u32,
    blocks: u32,
    airfield: u32,
    round: u32,
    stage: u32,
) -> Client
    ensures { ClientOf airfields least colluders blocks airfield round stage result }
{
    let plan = Plan {
        users: airfields,
        threshold: least,
        collusion: colluders,
        blocks,
    };
    Client {
        plan,
        user: airfield,
        usage: Use::Counts,
        round,
        stage: Stage::from(stage),
    }
}

// Of an end of any round.
#[tactic(auto, using(crate::proofs::Says::first_says, plan::proofs::Numbers::refused_ne0))]
pub fn first_message(
    airfields: u32,
    least: u32,
    colluders: u32,
    blocks: u32,
    airfield: u32,
    round: u32,
    stage: u32,
    key: &[u16],
    figures: &[u16],
    output: &mut [u16],
) -> Sent
    ensures { FirstSays airfields least colluders blocks airfield stage key.now figures.now result
        output.old output.new }
{
    let client = client_of(airfields, least, colluders, blocks, airfield, round, stage);
    match client.first_message(key, figures, output) {
        Ok(_) => Sent {
            number: 0,
            stage: 1,
        },
        Err(refusal) => Sent {
            number: u32::from(refusal),
            stage,
        },
    }
}

// Of an end of any round, asked for the round of the key: `round` is both. 33, of a request for another, is not document 03's.
#[tactic(auto, using(crate::proofs::Says::reply_says, client::proofs::Laws::answered, scheme::proofs::PlanBounds::usable_le))]
pub fn reply_part(
    airfields: u32,
    least: u32,
    colluders: u32,
    blocks: u32,
    airfield: u32,
    round: u32,
    stage: u32,
    key: &[u16],
    set: u32,
) -> Part
    ensures { ReplySays airfields least colluders blocks airfield stage key.now set result }
{
    let client = client_of(airfields, least, colluders, blocks, airfield, round, stage);
    match client.check_reply(key, set, round) {
        Ok(()) => Part {
            number: 0,
            start: plan::reply_start(client.plan, client.user, set) as u32,
            count: blocks,
            stage: 2 + set,
        },
        Err(refusal) => Part {
            number: u32::from(refusal),
            start: 0,
            count: 0,
            stage,
        },
    }
}
