ghost use Rattle.std.specs.Prelude.{◌≡◌, ◌≢◌, ℕ, List, ◌+◌, ◌<◌, ◌≤◌, ◌^◌, [], ◌∷◌, ◌++◌, length, IsTrue, IsSome, IfSome, IfOk, IfErr, OnOk, Some, None, is_none, map, slice_get};
ghost use Rattle.vst_base.specs.declared.step.TheConstants.{MAX_STEPS};
ghost use Rattle.net_semantics.specs.Steps.{IsAnswer};
ghost use Rattle.act_network.specs.ActRefusals.{act_refusal};
ghost use Rattle.act_network.specs.ActSteps.{act_next};
ghost use Rattle.act_network.specs.ActWorlds.{first_act_world};
ghost use Rattle.act_network.specs.Disks.{opens_new};
ghost use Rattle.act_network.specs.Listing.{shown};
ghost use Rattle.act_world.specs.ActViews.{ForShownAct, IsSoundActBy, ShowsAct, seen_items, seen_of};
ghost use Rattle.act_world.specs.Following.{HasFollowedActs};
ghost use Rattle.act_world.specs.Flights.{flight_copies, with_packet};
ghost use Rattle.act_world.specs.Moves.{AnswersActBy, Begins, CutsSo, Delivers, GoesOnBy, Happens, SavesOn, StartsSo, StopsSo, cut_in, lies_down, on_node, one_sent, starts_from, tells_on, turn_counts, with_flights};
ghost use Rattle.act_world.specs.Nodes.{with_disk, with_turn};
ghost use Rattle.act_world.specs.Refusals.{left_at, to_change, to_deliver, to_go_on, to_start, to_stop, to_take, to_tick, turn_at};
ghost use Rattle.act_world.specs.Turns.{going, uncounted};

use crate::act_node::ActNode;
use crate::event_input::input_of;
use crate::flight::Flight;
use crate::node_list::first_nodes;
use crate::notes::{ListedTurn, Notes};
use crate::refusals::{existing_node, place};
use crate::saves_by_acts::SavesByActs;
use crate::turn::{SavingTurn, TellingTurn, Turn};
use act_network::ActStep;
use handler_trait::{Effects, Handlers, Rebootable};
use net_semantics::StepFault;
use std::alloc::{AllocError, Global};
use std::marker::Model;
use vst_base::{Node, Step, StepRefusal};

/// A network in which each act of a node's device is a step, and a node may stop between any two: packets are copied and lost, and nodes
/// stop and start again.
#[derive(Drop)]
pub struct ActWorld<H: Rebootable, D: SavesByActs<H>> {
    pub(crate) alloc: Global,
    handlers: H,
    pub(crate) disks: D,
    pub(crate) nodes: Vec<ActNode<H::State, D::Disk, H::Input, D::Act, H::Output, H::Msg, D::Left>>,
    flights: Vec<Flight<H::Msg>>,
    notes: Notes<H::Input, H::Output>,
    pub(crate) taken: u32,
}

impl<H: Rebootable, D: SavesByActs<H>> Model for ActWorld<H, D> {
    ghost use Rattle.act_world.specs.ActViews.{ActView};

    ghost Value = { ActView H H.State D.Disk H.Input D.Act H.Output H.Msg D.Left };

    ghost view = { λ w. record {
      handlers = w.handlers;
      nodes = w.nodes.items;
      flights = w.flights.items;
      notes = w.notes;
      taken = w.taken;
    } };

    ghost invariant = { λ w. D.serves w.disks w.handlers };
}

impl<H: Rebootable, D: SavesByActs<H>> ActWorld<H, D> {
    /// The first world of these handlers: every node is up, on areas that were just opened, and none is in a turn.
    pub fn new(alloc: Global, handlers: H, disks: D) -> Result<Self, AllocError>
        requires serves { D.serves disks handlers }
        ensures handlers { IfOk result (λ world. world.handlers ≡ handlers) }
        ensures first { IfOk result (λ world. ShowsAct world (first_act_world (H.meaning handlers) D.disks)) }
        ensures taken { IfOk result (λ world. world.taken ≡ 0) }
        ensures sound { IfOk result (IsSoundActBy H.Rebootable) }
        ensures follows { IfOk result (λ world. HasFollowedActs H.Rebootable D.disks world []) }
    {
        let nodes = first_nodes(alloc, &handlers, &disks)?;
        let flights = Vec::new(alloc);
        let notes = Notes::new(alloc);
        Ok(ActWorld {
            alloc,
            handlers,
            disks,
            nodes,
            flights,
            notes,
            taken: 0,
        })
    }

    /// Takes one step, or says why not: the first refusal that applies. A refused step changes nothing. After want of memory the
    /// world is given up.
    pub fn step(&mut self, step: ActStep<H::Input, D::Left>) -> Result<(), StepFault>
        requires sound { IsSoundActBy H.Rebootable self.old }
        requires steps { self.old.taken < MAX_STEPS }
        ensures refused { ForShownAct self.old (λ w. IsAnswer result (act_refusal (H.meaning self.old.handlers) w step)) }
        ensures unchanged { IfErr result (λ why. why ≢ StepFault.Memory → self.new ≡ self.old) }
        ensures next { OnOk result (ForShownAct self.old (λ w.
            ShowsAct self.new (act_next (H.meaning self.old.handlers) (H.recovery self.old.handlers) D.disks w step))) }
        ensures taken { OnOk result (self.new.taken ≡ self.old.taken + 1) }
        ensures handlers { self.new.handlers ≡ self.old.handlers }
        ensures sound { OnOk result (IsSoundActBy H.Rebootable self.new) }
        ensures follows { OnOk result ((ss : List (ActStep H.Input D.Left)) → HasFollowedActs H.Rebootable D.disks self.old ss
            → HasFollowedActs H.Rebootable D.disks self.new (ss ++ step ∷ [])) }
    {
        self.take(step)
    }

    /// Its handlers.
    pub fn handlers(&self) -> &H
        ensures { result.now ≡ self.now.handlers }
    {
        &self.handlers
    }

    /// How many steps it has taken.
    pub fn taken(&self) -> u32
        ensures { result ≡ self.now.taken }
    {
        self.taken
    }

    /// The run of whole events that the steps so far come to.
    pub fn image(&self) -> &[Step<H::Input>]
        ensures { ForShownAct self.now (λ w. result.now ≡ w.image) }
    {
        self.notes.image()
    }

    /// The turns that count, in the order in which they count: what clients saw of each. Their items, in order, are the listed trace.
    pub fn listed(&self) -> &[ListedTurn<H::Input, H::Output>]
        ensures turns { ForShownAct self.now (λ w. result.now ≡ map seen_of w.listed) }
        ensures trace { ForShownAct self.now (λ w. seen_items result.now ≡ shown w.listed) }
    {
        self.notes.listed()
    }
}

// Why a step is refused, or which node or packet it is of; what happens at nodes, how their turns go on, and the kinds of step.
impl<H: Rebootable, D: SavesByActs<H>> ActWorld<H, D> {
    // Whether node `n` is up.
    fn is_up(&self, n: Node) -> bool
        requires { n < length self.now.nodes }
        ensures { result ≡ is_none (left_at (slice_get self.now.nodes n)) }
    {
        self.nodes[place(n)].left.is_none()
    }

    // Whether node `n` is in no turn.
    fn is_idle(&self, n: Node) -> bool
        requires { n < length self.now.nodes }
        ensures { result ≡ is_none (turn_at (slice_get self.now.nodes n)) }
    {
        self.nodes[place(n)].turn.is_none()
    }

    // How many copies of packet `k` are in flight, none of one that was never sent.
    fn copies_of(&self, k: u32) -> u32
        ensures { result ≡ flight_copies (slice_get self.now.flights k) }
    {
        match self.flights.get(k as usize) {
            Some(flight) => flight.copies(),
            None => 0,
        }
    }

    // The node whose timer fires.
    fn to_tick(&self, n: u32) -> Result<Node, StepRefusal>
        requires { length self.now.nodes ≡ (H.meaning self.now.handlers).nodes }
        ensures { result ≡ to_tick (H.meaning self.now.handlers) self.now n }
    {
        let node = existing_node(&self.handlers, n)?;
        if !self.is_up(node) {
            return Err(StepRefusal::NodeDown);
        }
        if !self.is_idle(node) {
            return Err(StepRefusal::NodeBusy);
        }
        Ok(node)
    }

    // The node that takes an input.
    fn to_take(&self, n: u32) -> Result<Node, StepRefusal>
        requires { length self.now.nodes ≡ (H.meaning self.now.handlers).nodes }
        ensures { result ≡ to_take (H.meaning self.now.handlers) self.now n }
    {
        let node = existing_node(&self.handlers, n)?;
        if !self.handlers.takes_input(node) {
            return Err(StepRefusal::NoInputHere);
        }
        if !self.is_up(node) {
            return Err(StepRefusal::NodeDown);
        }
        if !self.is_idle(node) {
            return Err(StepRefusal::NodeBusy);
        }
        Ok(node)
    }

    // The node that goes on with its turn.
    fn to_go_on(&self, n: u32) -> Result<Node, StepRefusal>
        requires { length self.now.nodes ≡ (H.meaning self.now.handlers).nodes }
        ensures { result ≡ to_go_on (H.meaning self.now.handlers) self.now n }
    {
        let node = existing_node(&self.handlers, n)?;
        if !self.is_up(node) {
            return Err(StepRefusal::NodeDown);
        }
        if self.is_idle(node) {
            return Err(StepRefusal::NodeIdle);
        }
        Ok(node)
    }

    // The node that stops.
    pub(crate) fn to_stop(&self, n: u32) -> Result<Node, StepRefusal>
        requires { length self.now.nodes ≡ (H.meaning self.now.handlers).nodes }
        ensures { result ≡ to_stop (H.meaning self.now.handlers) self.now n }
    {
        let node = existing_node(&self.handlers, n)?;
        if !self.is_up(node) {
            return Err(StepRefusal::NodeDown);
        }
        Ok(node)
    }

    // The node that starts again.
    fn to_start(&self, n: u32) -> Result<Node, StepRefusal>
        requires { length self.now.nodes ≡ (H.meaning self.now.handlers).nodes }
        ensures { result ≡ to_start (H.meaning self.now.handlers) self.now n }
    {
        let node = existing_node(&self.handlers, n)?;
        if self.is_up(node) {
            return Err(StepRefusal::NodeUp);
        }
        Ok(node)
    }

    // The packet that is copied or lost.
    fn to_change(&self, k: u32) -> Result<usize, StepRefusal>
        ensures { result ≡ to_change self.now k }
    {
        if self.copies_of(k) == 0 {
            return Err(StepRefusal::NoCopy);
        }
        Ok(k as usize)
    }

    // The packet that is delivered.
    fn to_deliver(&self, k: u32) -> Result<usize, StepRefusal>
        requires sound { IsSoundActBy H.Rebootable self.now }
        ensures { result ≡ to_deliver self.now k }
    {
        let Some(flight) = self.flights.get(k as usize) else {
            return Err(StepRefusal::NoCopy);
        };
        let node = flight.destination();
        if !self.is_up(node) {
            return Err(StepRefusal::NodeDown);
        }
        if flight.copies() == 0 {
            return Err(StepRefusal::NoCopy);
        }
        if !self.is_idle(node) {
            return Err(StepRefusal::NodeBusy);
        }
        Ok(k as usize)
    }

    // A client gives the node an input.
    fn input_event(
        &mut self,
        node: Node,
        input: &H::Input,
    ) -> Result<Effects<H::Output, H::Msg>, AllocError>
        requires sound { IsSoundActBy H.Rebootable self.old }
        requires steps { self.old.taken < MAX_STEPS }
        requires node { node < (H.meaning self.old.handlers).nodes }
        requires takes { IsTrue ((H.meaning self.old.handlers).takes_input node) }
        ensures happens { IfOk result (Happens (λ s. (H.meaning self.old.handlers).input node s input.now) (H.sound self.old.handlers node) node
            self.old self.new) }
        ensures handlers { self.new.handlers ≡ self.old.handlers }
    {
        let mut effects = Effects::with_capacity(self.alloc, 1, H::SENDS)?;
        let at = &mut self.nodes[place(node)];
        self.handlers
            .input(self.alloc, node, &mut at.state, input, &mut effects)?;
        Ok(effects)
    }

    // The node's timer fires.
    fn timeout_event(&mut self, node: Node) -> Result<Effects<H::Output, H::Msg>, AllocError>
        requires sound { IsSoundActBy H.Rebootable self.old }
        requires steps { self.old.taken < MAX_STEPS }
        requires node { node < (H.meaning self.old.handlers).nodes }
        ensures happens { IfOk result (Happens (λ s. (H.meaning self.old.handlers).timeout node s) (H.sound self.old.handlers node) node
            self.old self.new) }
        ensures handlers { self.new.handlers ≡ self.old.handlers }
    {
        let mut effects = Effects::with_capacity(self.alloc, 1, H::SENDS)?;
        let at = &mut self.nodes[place(node)];
        self.handlers
            .timeout(self.alloc, node, &mut at.state, &mut effects)?;
        Ok(effects)
    }

    // A copy of packet `k` comes to its destination.
    fn message_event(&mut self, k: usize) -> Result<Effects<H::Output, H::Msg>, AllocError>
        requires sound { IsSoundActBy H.Rebootable self.old }
        requires steps { self.old.taken < MAX_STEPS }
        requires copy { 0 < flight_copies (slice_get self.old.flights k) }
        ensures delivers { IfOk result (Delivers (H.meaning self.old.handlers).message (H.sound self.old.handlers) k self.old self.new) }
        ensures handlers { self.new.handlers ≡ self.old.handlers }
    {
        let mut effects = Effects::with_capacity(self.alloc, 1, H::SENDS)?;
        let flight = &self.flights[k];
        let node = flight.destination();
        let from = flight.source();
        let at = &mut self.nodes[place(node)];
        self.handlers.message(
            self.alloc,
            node,
            &mut at.state,
            from,
            flight.content(),
            &mut effects,
        )?;
        self.flights[k].take_copy();
        Ok(effects)
    }

    // The node is in this turn from now on, or in none.
    fn set_turn(&mut self, node: Node, turn: Option<Turn<H::Input, D::Act, H::Output, H::Msg>>)
        requires { node < length self.old.nodes }
        ensures { self.new ≡ on_node self.old node (with_turn turn) }
    {
        let at = &mut self.nodes[place(node)];
        at.turn = turn;
    }

    // The node is in no turn from now on. The one that it was in is moved out.
    fn take_turn(&mut self, node: Node) -> Option<Turn<H::Input, D::Act, H::Output, H::Msg>>
        requires { node < length self.old.nodes }
        ensures turn { result ≡ turn_at (slice_get self.old.nodes node) }
        ensures new { self.new ≡ on_node self.old node (with_turn None) }
    {
        let at = &mut self.nodes[place(node)];
        at.turn.take()
    }

    // The node is in no turn from now on. The one that it was in is moved out, if it has not counted.
    fn take_uncounted(
        &mut self,
        node: Node,
    ) -> Option<SavingTurn<H::Input, D::Act, H::Output, H::Msg>>
        requires { node < length self.old.nodes }
        ensures turn { result ≡ uncounted (turn_at (slice_get self.old.nodes node)) }
        ensures new { self.new ≡ on_node self.old node (with_turn None) }
    {
        match self.take_turn(node) {
            Some(turn) => turn.uncounted(),
            None => None,
        }
    }

    // A turn of the node counts, with this event, and has this to send and to put out.
    fn count(
        &mut self,
        node: Node,
        event: Step<H::Input>,
        effects: Effects<H::Output, H::Msg>,
    ) -> Result<(), AllocError>
        requires node { node < length self.old.nodes }
        requires fits { self.old.notes.sent + length effects.sends < 2 ^ 32 }
        ensures counts { OnOk result (self.new ≡ turn_counts self.old node event effects.sends effects.outputs) }
        ensures handlers { self.new.handlers ≡ self.old.handlers }
    {
        let input = input_of(&self.handlers, self.alloc, &event)?;
        let place = self.notes.listed().len();
        let number = self.notes.sent();
        let sends = effects.sends().len() as u32;
        self.notes.count(node, event, input, sends)?;
        self.set_turn(node, Turn::going(TellingTurn::new(effects, place, number)));
        Ok(())
    }

    // A turn begins that saves the node's state.
    fn begin(
        &mut self,
        node: Node,
        event: Step<H::Input>,
        effects: Effects<H::Output, H::Msg>,
    ) -> Result<(), AllocError>
        requires node { node < length self.old.nodes }
        requires exists { node < (H.meaning self.old.handlers).nodes }
        requires sound { IfSome (slice_get self.old.nodes node) (λ at. H.sound self.old.handlers node at.state) }
        requires fits { self.old.notes.sent + length effects.sends < 2 ^ 32 }
        ensures begins { OnOk result (Begins D.disks (H.recovery self.old.handlers).keep node event effects self.old self.new) }
        ensures handlers { self.new.handlers ≡ self.old.handlers }
    {
        let at = &self.nodes[place(node)];
        let acts = self
            .disks
            .acts(self.alloc, &self.handlers, &at.disk, &at.state)?;
        if acts.is_empty() {
            return self.count(node, event, effects);
        }
        let turn = SavingTurn::new(event, acts, effects);
        self.set_turn(node, Some(Turn::Saving(turn)));
        Ok(())
    }

    // The node does an act on its areas.
    fn make(&mut self, node: Node, act: D::Act) -> Result<(), AllocError>
        requires { node < length self.old.nodes }
        ensures made { OnOk result (self.new ≡ on_node self.old node (with_disk (D.disks.does act))) }
        ensures handlers { self.new.handlers ≡ self.old.handlers }
    {
        let at = &mut self.nodes[place(node)];
        self.disks.make(self.alloc, &mut at.disk, act)
    }

    // The node does the last act of a turn on its areas, and knows that its state is saved.
    fn make_last(&mut self, node: Node, act: D::Act) -> Result<(), AllocError>
        requires node { node < length self.old.nodes }
        requires exists { node < (H.meaning self.old.handlers).nodes }
        requires sound { IfSome (slice_get self.old.nodes node) (λ at. H.sound self.old.handlers node at.state) }
        ensures made { OnOk result (IfSome (slice_get self.old.nodes node) (λ at. self.new ≡ on_node self.old node
            (with_disk (λ disk. D.disks.learns ((H.recovery self.old.handlers).keep at.state) (D.disks.does act disk))))) }
        ensures handlers { self.new.handlers ≡ self.old.handlers }
    {
        let at = &mut self.nodes[place(node)];
        self.disks.make(self.alloc, &mut at.disk, act)?;
        self.disks
            .learn(self.alloc, &self.handlers, &mut at.disk, &at.state)
    }

    // The node goes on with a turn that has not counted. It is in no turn so far.
    fn save(
        &mut self,
        node: Node,
        turn: SavingTurn<H::Input, D::Act, H::Output, H::Msg>,
    ) -> Result<(), AllocError>
        requires node { node < length self.old.nodes }
        requires exists { node < (H.meaning self.old.handlers).nodes }
        requires sound { IfSome (slice_get self.old.nodes node) (λ at. H.sound self.old.handlers node at.state) }
        requires acts { turn.acts ≢ [] }
        requires fits { self.old.notes.sent + length turn.sends < 2 ^ 32 }
        ensures saves { OnOk result (SavesOn D.disks node self.old self.new (H.recovery self.old.handlers).keep turn) }
        ensures handlers { self.new.handlers ≡ self.old.handlers }
    {
        let mut turn = turn;
        let Some(act) = turn.next_act() else {
            unreachable!();
        };
        if turn.is_saved() {
            self.make_last(node, act)?;
            let (event, effects) = turn.into_parts();
            return self.count(node, event, effects);
        }
        self.make(node, act)?;
        self.set_turn(node, Some(Turn::Saving(turn)));
        Ok(())
    }

    // The node sends a packet, which has this number in the run of whole events.
    fn send(&mut self, node: Node, number: u32, send: (Node, H::Msg)) -> Result<(), AllocError>
        ensures sends { OnOk result (self.new ≡ one_sent self.old node number send) }
        ensures handlers { self.new.handlers ≡ self.old.handlers }
    {
        let (destination, content) = send;
        let flight = Flight::new(self.alloc, node, number, destination, content)?;
        self.flights.push(flight)?;
        Ok(())
    }

    // The node sends this packet, the next of its turn, and goes on with the turn.
    fn send_out(
        &mut self,
        node: Node,
        number: u32,
        send: (Node, H::Msg),
        turn: TellingTurn<H::Output, H::Msg>,
    ) -> Result<(), AllocError>
        requires { node < length self.old.nodes }
        ensures sends { OnOk result (self.new ≡ on_node (one_sent self.old node number send) node (with_turn (going turn))) }
        ensures handlers { self.new.handlers ≡ self.old.handlers }
    {
        self.send(node, number, send)?;
        self.set_turn(node, Turn::going(turn));
        Ok(())
    }

    // The node puts out the next output of a turn that has nothing to send. It is in no turn so far.
    fn put_out(
        &mut self,
        node: Node,
        turn: TellingTurn<H::Output, H::Msg>,
    ) -> Result<(), AllocError>
        requires node { node < length self.old.nodes }
        requires sends { turn.sends ≡ [] }
        requires outputs { turn.outputs ≢ [] }
        requires place { turn.place < length self.old.notes.listed }
        ensures tells { OnOk result (self.new ≡ tells_on self.old node turn turn.sends turn.outputs) }
        ensures handlers { self.new.handlers ≡ self.old.handlers }
    {
        let mut turn = turn;
        let Some(output) = turn.next_output() else {
            unreachable!();
        };
        self.notes.tell(turn.place(), output)?;
        self.set_turn(node, Turn::going(turn));
        Ok(())
    }

    // The node goes on with a turn that counts, and has something to send or to put out. It is in no turn so far.
    fn tell(&mut self, node: Node, turn: TellingTurn<H::Output, H::Msg>) -> Result<(), AllocError>
        requires node { node < length self.old.nodes }
        requires fits { turn.number + length turn.sends < 2 ^ 32 }
        requires place { turn.place < length self.old.notes.listed }
        requires more { turn.sends ≡ [] → turn.outputs ≢ [] }
        ensures tells { OnOk result (self.new ≡ tells_on self.old node turn turn.sends turn.outputs) }
        ensures handlers { self.new.handlers ≡ self.old.handlers }
    {
        let mut turn = turn;
        let number = turn.number();
        match turn.next_send() {
            Some(send) => self.send_out(node, number, send, turn),
            None => self.put_out(node, turn),
        }
    }

    // The node goes on with its turn.
    fn go_on(&mut self, node: Node) -> Result<(), AllocError>
        requires sound { IsSoundActBy H.Rebootable self.old }
        requires steps { self.old.taken < MAX_STEPS }
        requires node { node < length self.old.nodes }
        requires up { left_at (slice_get self.old.nodes node) ≡ None }
        requires busy { IsSome (turn_at (slice_get self.old.nodes node)) }
        ensures goes { OnOk result (GoesOnBy H.Rebootable D.disks node self.old self.new) }
        ensures handlers { self.new.handlers ≡ self.old.handlers }
    {
        let Some(turn) = self.take_turn(node) else {
            unreachable!();
        };
        match turn {
            Turn::Saving(turn) => self.save(node, turn),
            Turn::Telling(turn) => self.tell(node, turn),
        }
    }

    // Whether what is left of a node's areas opens as another state than the held one.
    fn opens_new(&self, node: Node, left: &D::Left) -> Result<bool, AllocError>
        requires node { node < length self.now.nodes }
        requires exists { node < (H.meaning self.now.handlers).nodes }
        ensures { IfOk result (λ new. IfSome (slice_get self.now.nodes node) (λ at. new ≡ opens_new D.disks node at.disk left.now)) }
    {
        let found = self.disks.open(self.alloc, &self.handlers, node, left)?;
        let at = &self.nodes[place(node)];
        match found {
            Some(kept) => Ok(!self.disks.is_held(&at.disk, &kept)),
            None => Ok(false),
        }
    }

    // The node is down, and this is left of its areas.
    fn lie_down(&mut self, node: Node, left: D::Left) -> Result<(), AllocError>
        requires { node < length self.old.nodes }
        ensures lies { OnOk result (self.new ≡ lies_down self.old node left) }
        ensures handlers { self.new.handlers ≡ self.old.handlers }
    {
        let at = &mut self.nodes[place(node)];
        at.turn = None;
        at.left = Some(left);
        self.notes.add(Step::Crash(u32::from(node.index())))
    }

    // A turn that has not counted, and was taken from the node, counts where this opens as the state after it.
    fn cut_saving(
        &mut self,
        node: Node,
        turn: SavingTurn<H::Input, D::Act, H::Output, H::Msg>,
        left: &D::Left,
    ) -> Result<(), AllocError>
        requires node { node < length self.old.nodes }
        requires exists { node < (H.meaning self.old.handlers).nodes }
        requires fits { self.old.notes.sent + length turn.sends < 2 ^ 32 }
        ensures cuts { OnOk result (IfSome (slice_get self.old.nodes node) (λ at.
            self.new ≡ cut_in D.disks self.old node left.now at.disk turn)) }
        ensures handlers { self.new.handlers ≡ self.old.handlers }
    {
        let new = self.opens_new(node, left)?;
        if new {
            let (event, effects) = turn.into_parts();
            return self.count(node, event, effects);
        }
        Ok(())
    }

    // The node stops, and is in no turn from now on. A turn that it cuts counts where this opens as the state after it.
    fn cut(&mut self, node: Node, left: &D::Left) -> Result<(), AllocError>
        requires sound { IsSoundActBy H.Rebootable self.old }
        requires node { node < (H.meaning self.old.handlers).nodes }
        requires steps { self.old.taken < MAX_STEPS }
        ensures cuts { OnOk result (CutsSo D.disks node self.old self.new left.now) }
        ensures handlers { self.new.handlers ≡ self.old.handlers }
    {
        match self.take_uncounted(node) {
            Some(turn) => self.cut_saving(node, turn, left),
            None => Ok(()),
        }
    }

    // The node stops, and this is left of its areas.
    pub(crate) fn stop(&mut self, node: Node, left: D::Left) -> Result<(), AllocError>
        requires sound { IsSoundActBy H.Rebootable self.old }
        requires node { node < (H.meaning self.old.handlers).nodes }
        requires steps { self.old.taken < MAX_STEPS }
        ensures stops { OnOk result (StopsSo D.disks node self.old self.new left) }
        ensures handlers { self.new.handlers ≡ self.old.handlers }
    {
        self.cut(node, &left)?;
        self.lie_down(node, left)
    }

    // What a node that is down finds, if what is left of its areas opens.
    fn found(&self, node: Node) -> Result<Option<H::Kept>, AllocError>
        requires node { node < length self.now.nodes }
        requires exists { node < (H.meaning self.now.handlers).nodes }
        requires down { IsSome (left_at (slice_get self.now.nodes node)) }
        ensures found { IfOk result (λ found. IfSome (left_at (slice_get self.now.nodes node)) (λ left. found ≡ D.disks.opens node left)) }
        ensures fits { IfOk result (λ found. IfSome found (H.fits self.now.handlers)) }
    {
        let at = &self.nodes[place(node)];
        let Some(left) = &at.left else {
            unreachable!();
        };
        self.disks.open(self.alloc, &self.handlers, node, left)
    }

    // A node that is down starts from what it kept, and its areas are opened.
    fn start_from(&mut self, node: Node, kept: H::Kept) -> Result<(), AllocError>
        requires node { node < length self.old.nodes }
        requires exists { node < (H.meaning self.old.handlers).nodes }
        requires down { IsSome (left_at (slice_get self.old.nodes node)) }
        requires opens { IfSome (left_at (slice_get self.old.nodes node)) (λ left. D.disks.opens node left ≡ Some kept) }
        requires fits { H.fits self.old.handlers kept }
        ensures starts { OnOk result (IfSome (left_at (slice_get self.old.nodes node)) (λ left.
            self.new ≡ starts_from (H.recovery self.old.handlers) D.disks self.old node left (Some kept))) }
        ensures handlers { self.new.handlers ≡ self.old.handlers }
        ensures sound { OnOk result (H.sound self.old.handlers node ((H.recovery self.old.handlers).reboot node kept)) }
    {
        let at = &mut self.nodes[place(node)];
        let Some(left) = at.left.take() else {
            unreachable!();
        };
        let state = self.handlers.reboot(self.alloc, node, kept)?;
        at.state = state;
        self.disks
            .reopen(self.alloc, &self.handlers, node, &mut at.disk, left)?;
        self.notes.add(Step::Reboot(u32::from(node.index())))
    }

    // A node that is down starts again, if it finds a state.
    fn start(&mut self, node: Node) -> Result<(), AllocError>
        requires node { node < length self.old.nodes }
        requires exists { node < (H.meaning self.old.handlers).nodes }
        requires down { IsSome (left_at (slice_get self.old.nodes node)) }
        ensures starts { OnOk result (StartsSo D.disks node self.old self.new (H.recovery self.old.handlers) (H.fits self.old.handlers)
            (H.sound self.old.handlers node)) }
        ensures handlers { self.new.handlers ≡ self.old.handlers }
    {
        let found = self.found(node)?;
        match found {
            Some(kept) => self.start_from(node, kept),
            None => Ok(()),
        }
    }

    pub(crate) fn take(&mut self, step: ActStep<H::Input, D::Left>) -> Result<(), StepFault>
        requires sound { IsSoundActBy H.Rebootable self.old }
        requires steps { self.old.taken < MAX_STEPS }
        ensures { AnswersActBy H.Rebootable D.disks step self.old self.new result }
    {
        match step {
            ActStep::In(n, input) => self.take_input(n, input),
            ActStep::Deliver(k) => self.take_deliver(k),
            ActStep::Tick(n) => self.take_tick(n),
            ActStep::Act(n) => self.take_act(n),
            ActStep::Dup(k) => self.take_dup(k),
            ActStep::Lose(k) => self.take_lose(k),
            ActStep::Stop(n, left) => self.take_stop(n, left),
            ActStep::Reboot(n) => self.take_reboot(n),
        }
    }

    // An input.
    fn take_input(&mut self, n: u32, input: H::Input) -> Result<(), StepFault>
        requires sound { IsSoundActBy H.Rebootable self.old }
        requires steps { self.old.taken < MAX_STEPS }
        ensures { AnswersActBy H.Rebootable D.disks (ActStep.In n input) self.old self.new result }
    {
        let node = self.to_take(n)?;
        let effects = self.input_event(node, &input)?;
        self.begin(node, Step::In(n, input), effects)?;
        self.taken += 1;
        Ok(())
    }

    // A timer.
    fn take_tick(&mut self, n: u32) -> Result<(), StepFault>
        requires sound { IsSoundActBy H.Rebootable self.old }
        requires steps { self.old.taken < MAX_STEPS }
        ensures { AnswersActBy H.Rebootable D.disks (ActStep.Tick n) self.old self.new result }
    {
        let node = self.to_tick(n)?;
        let effects = self.timeout_event(node)?;
        self.begin(node, Step::Tick(n), effects)?;
        self.taken += 1;
        Ok(())
    }

    // A delivery.
    fn take_deliver(&mut self, k: u32) -> Result<(), StepFault>
        requires sound { IsSoundActBy H.Rebootable self.old }
        requires steps { self.old.taken < MAX_STEPS }
        ensures { AnswersActBy H.Rebootable D.disks (ActStep.Deliver k) self.old self.new result }
    {
        let flight = self.to_deliver(k)?;
        let sent = &self.flights[flight];
        let node = sent.destination();
        let number = sent.number();
        let effects = self.message_event(flight)?;
        self.begin(node, Step::Deliver(number), effects)?;
        self.taken += 1;
        Ok(())
    }

    // The next act of a turn.
    fn take_act(&mut self, n: u32) -> Result<(), StepFault>
        requires sound { IsSoundActBy H.Rebootable self.old }
        requires steps { self.old.taken < MAX_STEPS }
        ensures { AnswersActBy H.Rebootable D.disks (ActStep.Act n) self.old self.new result }
    {
        let node = self.to_go_on(n)?;
        self.go_on(node)?;
        self.taken += 1;
        Ok(())
    }

    // A copy.
    fn take_dup(&mut self, k: u32) -> Result<(), StepFault>
        requires sound { IsSoundActBy H.Rebootable self.old }
        requires steps { self.old.taken < MAX_STEPS }
        ensures { AnswersActBy H.Rebootable D.disks (ActStep.Dup k) self.old self.new result }
    {
        let at = self.to_change(k)?;
        let flight = &mut self.flights[at];
        flight.add_copy();
        let number = flight.number();
        self.notes.add(Step::Dup(number))?;
        self.taken += 1;
        Ok(())
    }

    // A loss.
    fn take_lose(&mut self, k: u32) -> Result<(), StepFault>
        requires sound { IsSoundActBy H.Rebootable self.old }
        requires steps { self.old.taken < MAX_STEPS }
        ensures { AnswersActBy H.Rebootable D.disks (ActStep.Lose k) self.old self.new result }
    {
        let at = self.to_change(k)?;
        let flight = &mut self.flights[at];
        flight.take_copy();
        let number = flight.number();
        self.notes.add(Step::Lose(number))?;
        self.taken += 1;
        Ok(())
    }

    // A stop.
    fn take_stop(&mut self, n: u32, left: D::Left) -> Result<(), StepFault>
        requires sound { IsSoundActBy H.Rebootable self.old }
        requires steps { self.old.taken < MAX_STEPS }
        ensures { AnswersActBy H.Rebootable D.disks (ActStep.Stop n left) self.old self.new result }
    {
        let node = self.to_stop(n)?;
        self.stop(node, left)?;
        self.taken += 1;
        Ok(())
    }

    // A start.
    fn take_reboot(&mut self, n: u32) -> Result<(), StepFault>
        requires sound { IsSoundActBy H.Rebootable self.old }
        requires steps { self.old.taken < MAX_STEPS }
        ensures { AnswersActBy H.Rebootable D.disks (ActStep.Reboot n) self.old self.new result }
    {
        let node = self.to_start(n)?;
        self.start(node)?;
        self.taken += 1;
        Ok(())
    }
}
