ghost use Rattle.std.specs.Prelude.{◌≡◌, List, IfOk, is_some};
ghost use Rattle.flight_index.specs.Flights.{goes_up, numbers_of};
ghost use Rattle.flight_index.specs.Turns.{firsts};
ghost use Rattle.vst_base.specs.declared.step.Step.{Step as SpecStep};
ghost use Rattle.xform_stack.specs.Systems.{world_of};
ghost use Rattle.schedule_make.specs.Candidates.{candidates, chosen, drawn_kind, made_kind, may_act, nodes_that};
ghost use Rattle.schedule_make.specs.Flying.{KnowsFlights, KnowsTurns};
ghost use Rattle.schedule_make.specs.Offers.{offered, picked};

use flight_index::{FlightIndex, TurnIndex};
use handler_trait::Handlers;
use std::alloc::{AllocError, Global};
use vst_base::{Node, StepKind};
use xform_stack::Network;

// Four of sixteen words take an input, seven deliver, and one each does what else there is.
pub(crate) fn drawn_kind(word: u32) -> StepKind
    ensures { result ≡ drawn_kind word }
{
    match word % 16 {
        0..=3 => StepKind::In,
        4 => StepKind::Tick,
        5 => StepKind::Dup,
        6 => StepKind::Lose,
        7 => StepKind::Crash,
        8 => StepKind::Reboot,
        _ => StepKind::Deliver,
    }
}

// How many nodes there are.
pub(crate) fn nodes<H: Handlers, W: Network<H>>(network: &W) -> u8
    ensures { result ≡ (W.system network.now).meaning.nodes }
{
    network.handlers().nodes()
}

// Whether node `n` takes input.
fn takes_input<H: Handlers, W: Network<H>>(network: &W, n: Node) -> bool
    ensures { result ≡ (W.system network.now).meaning.takes_input n }
{
    network.handlers().takes_input(n)
}

// Whether a step of this kind may be taken at node `n`.
fn may_act<H: Handlers, W: Network<H>>(network: &W, kind: StepKind, n: Node) -> bool
    ensures { (ss : List (SpecStep H.Input)) → W.follows network.now ss
        → result ≡ may_act (W.system network.now).meaning (world_of (W.system network.now) ss) kind n }
{
    match kind {
        StepKind::In => takes_input(network, n) && network.is_up(n),
        StepKind::Tick | StepKind::Crash => network.is_up(n),
        StepKind::Reboot => !network.is_up(n),
        StepKind::Deliver | StepKind::Dup | StepKind::Lose => false,
    }
}

// The nodes at which a step of this kind may be taken, ascending.
fn nodes_that<H: Handlers, W: Network<H>>(
    alloc: Global,
    network: &W,
    kind: StepKind,
) -> Result<Vec<u32>, AllocError>
    ensures { IfOk result (λ found. (ss : List (SpecStep H.Input)) → W.follows network.now ss
        → found.items ≡ nodes_that (W.system network.now).meaning
        (may_act (W.system network.now).meaning (world_of (W.system network.now) ss) kind)) }
{
    let nodes = nodes(network);
    let mut found = Vec::new(alloc);
    for n in 0..nodes {
        if let Some(node) = Node::new(n, nodes) {
            if may_act(network, kind, node) {
                found.push(u32::from(n))?;
            }
        }
    }
    Ok(found)
}

// The candidate of this number, counted round.
fn picked(candidates: &[u32], number: u32) -> Option<u32>
    ensures { result ≡ picked candidates.now number }
{
    if candidates.is_empty() {
        return None;
    }
    candidates.get(number as usize % candidates.len()).copied()
}

// The packet of this number, counted round, of those with a copy in flight.
fn in_flight(flights: &FlightIndex, number: u32) -> Option<u32>
    ensures { result ≡ picked (numbers_of is_some 0 flights.now.packets) number }
{
    match flights.in_flight() {
        0 => None,
        n => flights.nth_in_flight(number % n),
    }
}

// The same of those that go to a node that is up.
fn deliverable(flights: &FlightIndex, number: u32) -> Option<u32>
    ensures { result ≡ picked (numbers_of (goes_up flights.now.up) 0 flights.now.packets) number }
{
    match flights.deliverable() {
        0 => None,
        n => flights.nth_deliverable(number % n),
    }
}

// The same of those that are the first of their source and destination.
fn in_turn(turns: &TurnIndex, number: u32) -> Option<u32>
    ensures { result ≡ picked (firsts turns.now) number }
{
    match turns.firsts() {
        0 => None,
        n => turns.nth_first(number % n),
    }
}

// The candidate of a kind that a number names, counted round, if there is one.
fn candidate<H: Handlers, W: Network<H>>(
    alloc: Global,
    network: &W,
    flights: &FlightIndex,
    turns: &Option<TurnIndex>,
    kind: StepKind,
    number: u32,
) -> Result<Option<u32>, AllocError>
    ensures { IfOk result (λ found. (ss : List (SpecStep H.Input)) → W.follows network.now ss
        → KnowsFlights flights.now (world_of (W.system network.now) ss)
        → KnowsTurns (W.system network.now).net turns.now (world_of (W.system network.now) ss)
        → found ≡ picked (candidates (W.system network.now).net (W.system network.now).meaning
        (world_of (W.system network.now) ss) kind) number) }
{
    match kind {
        StepKind::Dup | StepKind::Lose => Ok(in_flight(flights, number)),
        StepKind::Deliver => Ok(match turns {
            Some(turns) => in_turn(turns, number),
            None => deliverable(flights, number),
        }),
        StepKind::In | StepKind::Tick | StepKind::Crash | StepKind::Reboot => {
            let nodes = nodes_that(alloc, network, kind)?;
            Ok(picked(&nodes, number))
        }
    }
}

// The same of a kind of step that the network has.
fn offered<H: Handlers, W: Network<H>>(
    alloc: Global,
    network: &W,
    flights: &FlightIndex,
    turns: &Option<TurnIndex>,
    kind: StepKind,
    number: u32,
) -> Result<Option<u32>, AllocError>
    ensures { IfOk result (λ found. (ss : List (SpecStep H.Input)) → W.follows network.now ss
        → KnowsFlights flights.now (world_of (W.system network.now) ss)
        → KnowsTurns (W.system network.now).net turns.now (world_of (W.system network.now) ss)
        → found ≡ offered (W.system network.now).net (W.system network.now).meaning (world_of (W.system network.now) ss) kind number) }
{
    if !network.net().has(kind) {
        return Ok(None);
    }
    candidate(alloc, network, flights, turns, kind, number)
}

// Of which kind a step is, where this kind was drawn, and the node or packet that it names.
#[tactic(auto, using(crate::proofs::Offers::offered_some, crate::proofs::Offers::offered_none, crate::proofs::Offers::made_drawn, crate::proofs::Offers::made_tick, crate::proofs::Offers::made_rest, crate::proofs::Offers::picked_or))]
pub(crate) fn settled<H: Handlers, W: Network<H>>(
    alloc: Global,
    network: &W,
    flights: &FlightIndex,
    turns: &Option<TurnIndex>,
    drawn: StepKind,
    number: u32,
) -> Result<(StepKind, u32), AllocError>
    ensures kind { IfOk result (λ step. (ss : List (SpecStep H.Input)) → W.follows network.now ss
        → KnowsFlights flights.now (world_of (W.system network.now) ss)
        → KnowsTurns (W.system network.now).net turns.now (world_of (W.system network.now) ss)
        → step.0 ≡ made_kind (W.system network.now).net (W.system network.now).meaning (world_of (W.system network.now) ss) drawn) }
    ensures chosen { IfOk result (λ step. (ss : List (SpecStep H.Input)) → W.follows network.now ss
        → KnowsFlights flights.now (world_of (W.system network.now) ss)
        → KnowsTurns (W.system network.now).net turns.now (world_of (W.system network.now) ss)
        → step.1 ≡ chosen (candidates (W.system network.now).net (W.system network.now).meaning
        (world_of (W.system network.now) ss) step.0) number) }
{
    if let Some(at) = offered(alloc, network, flights, turns, drawn, number)? {
        return Ok((drawn, at));
    }
    if let Some(at) = offered(alloc, network, flights, turns, StepKind::Tick, number)? {
        return Ok((StepKind::Tick, at));
    }
    let at = candidate(alloc, network, flights, turns, StepKind::Reboot, number)?;
    Ok((StepKind::Reboot, at.unwrap_or(0)))
}
