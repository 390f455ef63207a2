ghost use Rattle.std.specs.Prelude.{◌≡◌, ◌≤◌, ◌+◌, ℕ, List, [], None, IfOk, length, option_map};
ghost use Rattle.check_text.specs.Claims.{Claim as SpecClaim};
ghost use Rattle.check_text.specs.ImageLines.{IsHeaded};
ghost use Rattle.net_semantics.specs.Runs.{IsAllowed};
ghost use Rattle.stacks.specs.Claimed.{Claimed};
ghost use Rattle.stacks.specs.Made.{made_on};
ghost use Rattle.stacks.specs.Plays.{Play, image_of, play_of, texts_of};
ghost use Rattle.stacks.specs.Stack.{AnyStack, any_stack};
ghost use Rattle.vst_base.specs.declared.node.TheConstants.{MAX_NODES};
ghost use Rattle.vst_base.specs.declared.stack.StackId.{StackId as SpecId};
ghost use Rattle.vst_base.specs.declared.step.Step.{Step};
ghost use Rattle.vst_base.specs.declared.step.TheConstants.{MAX_STEPS};
ghost use Rattle.check_text.specs.declared.reading.TheConstants.{MAX_LINES};
ghost use Rattle.xform_stack.specs.Running.{HasRun, HasTaken};

use app_text::AppText;
use check_text::{Claim, ImageText};
use claim_verdicts::Verdict;
use handler_trait::Handlers;
use schedule_make::MakesInputs;
use schedule_text::{Header, Printed};
use std::alloc::{AllocError, Global};
use vst_base::StackId;
use xform_stack::{Network, Runs};

/// How the schedules of a stack play, as code that is known by its type.
pub trait Plays {
    type Input: Drop;

    type Output: Drop;

    /// A line of the image.
    type Line: Printed<Self::Text> + Drop;

    /// How inputs and outputs are spelled.
    type Text: AppText<Input = Self::Input, Output = Self::Output>;

    /// A schedule that is run.
    type Running: Runs<Input = Self::Input, Output = Self::Output, Line = Self::Line>;

    /// How the schedules of so many nodes play.
    ghost play: { ℕ → Play Self.Input Self.Output Self.Line };

    /// What it means that an image explains a trace.
    ghost Explains: { SpecClaim Self.Input Self.Output Self.Line → Type 0 };

    /// Whether a stack of this name can be played on so many nodes: it may have them, and the packets of the stack hold its messages.
    ghost ready: { SpecId → ℕ → Type 0 };

    /// The header of the image, where it has one.
    fn below(nodes: u8) -> Option<Header>
        ensures texts { (play nodes).texts
            ≡ texts_of Self.Text.input_of Self.Text.input_text Self.Text.output_of Self.Text.output_text Self.Text.replies }
        ensures below { (play nodes).below ≡ image_of result Self.Line.text };

    /// No step yet.
    fn start(alloc: Global, stack: StackId, nodes: u8) -> Result<Self::Running, AllocError>
        requires ready { ready stack nodes }
        ensures started { IfOk result (λ running.
            HasRun (Self.Running.played running) Self.Running.follows Self.Running.progress [] [] running) }
        ensures sound { IfOk result Self.Running.sound }
        ensures runs { IfOk result (λ running.
            play nodes ≡ play_of (Self.Running.played running) (play nodes).texts (play nodes).below) }
        ensures texts { IfOk result (λ running. (play nodes).texts
            ≡ texts_of Self.Text.input_of Self.Text.input_text Self.Text.output_of Self.Text.output_text Self.Text.replies) };
}

/// How claims on a stack are read and judged.
pub trait Judged: Plays {
    /// How the lines of an image are read.
    type Lines: ImageText<Line = Self::Line>;

    /// What a line of an image says, and the verdict on a claim.
    ghost claimed: { Claimed Self.Input Self.Output Self.Line };

    /// The verdict on a claim that was read.
    fn verdict(
        alloc: Global,
        nodes: u8,
        claim: &Claim<Self::Input, Self::Output, Self::Line>,
    ) -> Result<Verdict, AllocError>
        requires few { length claim.now.trace + length claim.now.image ≤ MAX_LINES }
        requires counted { length claim.now.image ≤ MAX_STEPS }
        requires headed { IsHeaded (option_map (λ h. h.stack) (Self.play nodes).below.header) claim.now.header }
        ensures { IfOk result (λ verdict. verdict ≡ claimed.verdict claim.now) };

    /// Lines of an image are read so.
    ghost says: { claimed.says ≡ Self.Lines.says };
}

/// The code of a stack, which is known by its type, its name and its number of nodes.
pub trait StackCode: Judged {
    /// What its nodes run.
    type Handlers: Handlers<Input = Self::Input, Output = Self::Output>;

    /// What its schedules run on.
    type Network: Network<Self::Handlers>;

    /// The inputs of made schedules.
    type Inputs: MakesInputs<Input = Self::Input>;

    /// The schedules that are made for so many nodes, by a number and by how many steps they have.
    ghost made: { ℕ → ℕ → ℕ → List (Step Self.Input) };

    /// A network that has taken no step yet.
    fn network(alloc: Global, stack: StackId, nodes: u8) -> Result<Self::Network, AllocError>
        requires ready { Self.ready stack nodes }
        ensures started { IfOk result (λ network.
            HasTaken (Self.Network.system network) Self.Network.follows Self.Network.progress [] network) }
        ensures sound { IfOk result Self.Network.sound }
        ensures made { IfOk result (λ network. made nodes ≡ made_on (Self.Network.system network) Self.Inputs.inputs) }
        ensures allowed { IfOk result (λ network. (ss : List (Step Self.Input)) → (Self.play nodes).refused ss ≡ None
            → IsAllowed (Self.Network.system network).net (Self.Network.system network).meaning (Self.Network.system network).recovery ss) }
        ensures texts { IfOk result (λ network. (Self.play nodes).texts
            ≡ texts_of Self.Text.input_of Self.Text.input_text Self.Text.output_of Self.Text.output_text Self.Text.replies) }
        ensures few_nodes { IfOk result (λ network. (Self.Network.system network).meaning.nodes ≤ MAX_NODES) };
}

/// What a command does on the code of any stack, with what is lent to it.
pub trait OnStack<A, B> {
    type Said;

    /// When it may do that.
    ghost ready: { Self → AnyStack → A → B → Type 0 };

    /// What it makes of what is lent to it, and what it says.
    ghost Does: { Self → AnyStack → A → B → A → B → Self.Said → Type 0 };

    /// Does it on the stack of this name and of so many nodes.
    fn on<S: StackCode>(self, stack: StackId, nodes: u8, a: &mut A, b: &mut B) -> Self::Said
        requires ready { ready self (any_stack (S.play nodes) S.Explains S.claimed (S.made nodes)) a.old b.old }
        requires stack { S.ready stack nodes }
        ensures { Does self (any_stack (S.play nodes) S.Explains S.claimed (S.made nodes)) a.old b.old a.new b.new result };
}
