ghost use Rattle.std.specs.Prelude.{ℕ};
ghost use Rattle.stacks.specs.Stack.{AnyStack, any_stack};

use crate::{
    Application, Clustered, Layered, Numbered, OnStack, Plays, Reading, Retried, StackCode, Steady,
    Stepwise,
};
use handler_trait::LeavesRoom;
use vst_base::StackId;
use wired::AlwaysFits;

// The stack that code is for, as one value.
trait IsStack: StackCode {
    ghost stack: { ℕ → AnyStack };
}

impl<C: StackCode> IsStack for C {
    ghost stack = { λ n. any_stack (C.play n) C.Explains C.claimed (C.made n) };
}

// Each of these functions takes one layer away, over whatever stands below it, or is of any machine: so what an arm of the table costs to
// check does not grow with the product of its layers.

/// Does a command on the code of these layers.
pub(crate) fn on_layers<S: Layered, A, B, V: OnStack<A, B>>(
    command: V,
    stack: StackId,
    nodes: u8,
    a: &mut A,
    b: &mut B,
) -> V::Said
    requires ready { V.ready command (⟦<Steady<S> as IsStack>⟧.stack nodes) a.old b.old }
    requires stack { ⟦<Steady<S> as Plays>⟧.ready stack nodes }
    ensures { V.Does command (⟦<Steady<S> as IsStack>⟧.stack nodes) a.old b.old a.new b.new result }
{
    command.on::<Steady<S>>(stack, nodes, a, b)
}

/// Does a command on the code of these layers with numbered packets.
pub(crate) fn on_numbered<S: Stepwise, A, B, V: OnStack<A, B>>(
    command: V,
    stack: StackId,
    nodes: u8,
    a: &mut A,
    b: &mut B,
) -> V::Said
    requires ready { V.ready command (⟦<Steady<Numbered<S>> as IsStack>⟧.stack nodes) a.old b.old }
    requires stack { ⟦<Steady<Numbered<S>> as Plays>⟧.ready stack nodes }
    ensures { V.Does command (⟦<Steady<Numbered<S>> as IsStack>⟧.stack nodes) a.old b.old a.new b.new result }
{
    on_layers::<Numbered<S>, A, B, V>(command, stack, nodes, a, b)
}

/// Does a command on the code of these layers with packets that are sent again.
pub(crate) fn on_retried<S: Stepwise<Handlers: LeavesRoom>, A, B, V: OnStack<A, B>>(
    command: V,
    stack: StackId,
    nodes: u8,
    a: &mut A,
    b: &mut B,
) -> V::Said
    requires ready { V.ready command (⟦<Steady<Retried<S>> as IsStack>⟧.stack nodes) a.old b.old }
    requires stack { ⟦<Steady<Retried<S>> as Plays>⟧.ready stack nodes }
    ensures { V.Does command (⟦<Steady<Retried<S>> as IsStack>⟧.stack nodes) a.old b.old a.new b.new result }
{
    on_layers::<Retried<S>, A, B, V>(command, stack, nodes, a, b)
}

/// Does a command on the code of a cluster of this machine.
pub(crate) fn on_clustered<M: Application, A, B, V: OnStack<A, B>>(
    command: V,
    stack: StackId,
    nodes: u8,
    a: &mut A,
    b: &mut B,
) -> V::Said
where
    M::Cmd: AlwaysFits,
    requires ready { V.ready command (⟦<Clustered<M> as IsStack>⟧.stack nodes) a.old b.old }
    requires stack { ⟦<Clustered<M> as Plays>⟧.ready stack nodes }
    ensures { V.Does command (⟦<Clustered<M> as IsStack>⟧.stack nodes) a.old b.old a.new b.new result }
{
    command.on::<Clustered<M>>(stack, nodes, a, b)
}

/// Does a command on the code of a cluster of this machine whose reads take no entry of the log.
pub(crate) fn on_reading<M: Application, A, B, V: OnStack<A, B>>(
    command: V,
    stack: StackId,
    nodes: u8,
    a: &mut A,
    b: &mut B,
) -> V::Said
where
    M::Cmd: AlwaysFits,
    requires ready { V.ready command (⟦<Reading<M> as IsStack>⟧.stack nodes) a.old b.old }
    requires stack { ⟦<Reading<M> as Plays>⟧.ready stack nodes }
    ensures { V.Does command (⟦<Reading<M> as IsStack>⟧.stack nodes) a.old b.old a.new b.new result }
{
    command.on::<Reading<M>>(stack, nodes, a, b)
}
