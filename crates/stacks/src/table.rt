ghost use Rattle.std.specs.Prelude.{[], ◌∷◌};
ghost use Rattle.schedule_text.specs.Headers.{IsHeader};
ghost use Rattle.stacks.specs.Plays.{IfFound};
ghost use Rattle.stacks.specs.Stack.{IsOneOf, stack_at};
ghost use Rattle.vst_base.specs.declared.stack.StackId.TheVariants as id;

use crate::on_layers::{on_clustered, on_layers, on_numbered, on_reading, on_retried};
use crate::{
    Alone, Application, AsOwn, Backed, Numbered, NumberedBackup, NumberedStack, OnStack, Ordered,
    Own, OwnStack,
};
use app_text::{KvText, LockText, MirrorText, TableText};
use kv_machine::KvMachine;
use lock_server::LockServer;
use lock_table::TableMachine;
use mirror::Mirror;
use schedule_make::{KvInputs, LockInputs, MirrorInputs, TableInputs};
use schedule_text::{Header, headers_follow_the_rows};
use vst_base::StackId;

impl OwnStack for LockServer {
    type Text = LockText;

    type Inputs = LockInputs;

    ghost own = { id.Lock };

    ghost of_nodes = { λ n. n };

    fn own() -> StackId {
        StackId::Lock
    }

    fn of_nodes(nodes: u8) -> LockServer {
        LockServer::new(nodes)
    }
}

impl NumberedStack for LockServer {
    ghost numbered = { id.LockSeq };

    fn numbered() -> StackId {
        StackId::LockSeq
    }

    ghost as_many = { λ n least most. (least, most) };
}

impl OwnStack for Mirror {
    type Text = MirrorText;

    type Inputs = MirrorInputs;

    ghost own = { id.Mirror };

    ghost of_nodes = { λ n. n };

    fn own() -> StackId {
        StackId::Mirror
    }

    fn of_nodes(nodes: u8) -> Mirror {
        Mirror::new(nodes)
    }
}

impl Application for KvMachine {
    type Text = KvText;

    type Inputs = KvInputs;

    ghost own = { id.Kv };

    ghost machine = { record {} };

    fn own() -> StackId {
        StackId::Kv
    }

    fn machine() -> KvMachine {
        KvMachine
    }
}

impl NumberedBackup for KvMachine {
    ghost numbered = { id.KvPbSeq };

    fn numbered() -> StackId {
        StackId::KvPbSeq
    }
}

impl Application for TableMachine {
    type Text = TableText;

    type Inputs = TableInputs;

    ghost own = { id.Table };

    ghost machine = { record {} };

    fn own() -> StackId {
        StackId::Table
    }

    fn machine() -> TableMachine {
        TableMachine
    }
}

// Does a command on the code of a stack of the lock server.
fn on_locks<A, B, V: OnStack<A, B>>(header: &Header, command: V, a: &mut A, b: &mut B) -> V::Said
    requires known { IsHeader header.now }
    requires stack { IsOneOf (id.Lock ∷ id.LockSeq ∷ id.LockSeqRetry ∷ []) header.now.stack }
    requires ready { IfFound (stack_at header.now) (λ s. V.ready command s a.old b.old) }
    ensures { IfFound (stack_at header.now) (λ s. V.Does command s a.old b.old a.new b.new result) }
{
    headers_follow_the_rows();
    let (i, n) = (header.stack, header.nodes);
    match i {
        StackId::Lock => on_layers::<Own<LockServer>, A, B, V>(command, i, n, a, b),
        StackId::LockSeq => on_numbered::<Own<LockServer>, A, B, V>(command, i, n, a, b),
        StackId::LockSeqRetry => on_retried::<AsOwn<Numbered<Own<LockServer>>>, A, B, V>(
            command, i, n, a, b,
        ),
        _ => unreachable!(),
    }
}

// Does a command on the code of a stack of the key-value machine.
fn on_store<A, B, V: OnStack<A, B>>(header: &Header, command: V, a: &mut A, b: &mut B) -> V::Said
    requires known { IsHeader header.now }
    requires stack { IsOneOf (id.Kv ∷ id.KvPb ∷ id.KvPbSeq ∷ id.KvPbSeqRetry ∷ id.KvRaft ∷ id.KvRaftRead ∷ []) header.now.stack }
    requires ready { IfFound (stack_at header.now) (λ s. V.ready command s a.old b.old) }
    ensures { IfFound (stack_at header.now) (λ s. V.Does command s a.old b.old a.new b.new result) }
{
    headers_follow_the_rows();
    let (i, n) = (header.stack, header.nodes);
    match i {
        StackId::Kv => command.on::<Alone<KvMachine>>(i, n, a, b),
        StackId::KvPb => on_layers::<Backed<KvMachine>, A, B, V>(command, i, n, a, b),
        StackId::KvPbSeq => on_numbered::<Backed<KvMachine>, A, B, V>(command, i, n, a, b),
        StackId::KvPbSeqRetry => on_retried::<AsOwn<Numbered<Backed<KvMachine>>>, A, B, V>(
            command, i, n, a, b,
        ),
        StackId::KvRaft => on_clustered::<KvMachine, A, B, V>(command, i, n, a, b),
        StackId::KvRaftRead => on_reading::<KvMachine, A, B, V>(command, i, n, a, b),
        _ => unreachable!(),
    }
}

// Does a command on the code of a stack of the table of named locks.
fn on_table<A, B, V: OnStack<A, B>>(header: &Header, command: V, a: &mut A, b: &mut B) -> V::Said
    requires known { IsHeader header.now }
    requires stack { IsOneOf (id.Table ∷ id.TablePbSeq ∷ id.TableRaft ∷ id.TableRaftRead ∷ []) header.now.stack }
    requires ready { IfFound (stack_at header.now) (λ s. V.ready command s a.old b.old) }
    ensures { IfFound (stack_at header.now) (λ s. V.Does command s a.old b.old a.new b.new result) }
{
    headers_follow_the_rows();
    let (i, n) = (header.stack, header.nodes);
    match i {
        StackId::Table => command.on::<Alone<TableMachine>>(i, n, a, b),
        StackId::TablePbSeq => on_numbered::<Backed<TableMachine>, A, B, V>(command, i, n, a, b),
        StackId::TableRaft => on_clustered::<TableMachine, A, B, V>(command, i, n, a, b),
        StackId::TableRaftRead => on_reading::<TableMachine, A, B, V>(command, i, n, a, b),
        _ => unreachable!(),
    }
}

// Does a command on the code of a stack of the mirror.
fn on_mirrors<A, B, V: OnStack<A, B>>(header: &Header, command: V, a: &mut A, b: &mut B) -> V::Said
    requires known { IsHeader header.now }
    requires stack { IsOneOf (id.Mirror ∷ id.MirrorFifo ∷ []) header.now.stack }
    requires ready { IfFound (stack_at header.now) (λ s. V.ready command s a.old b.old) }
    ensures { IfFound (stack_at header.now) (λ s. V.Does command s a.old b.old a.new b.new result) }
{
    headers_follow_the_rows();
    let (i, n) = (header.stack, header.nodes);
    match i {
        StackId::Mirror => on_layers::<Own<Mirror>, A, B, V>(command, i, n, a, b),
        StackId::MirrorFifo => on_layers::<Ordered<Own<Mirror>>, A, B, V>(command, i, n, a, b),
        _ => unreachable!(),
    }
}

/// Does a command on the code of a header's stack, with what is lent to it: the only way from a header to that code.
pub fn on_stack<A, B, V: OnStack<A, B>>(
    header: &Header,
    command: V,
    a: &mut A,
    b: &mut B,
) -> V::Said
    requires known { IsHeader header.now }
    requires ready { IfFound (stack_at header.now) (λ s. V.ready command s a.old b.old) }
    ensures { IfFound (stack_at header.now) (λ s. V.Does command s a.old b.old a.new b.new result) }
{
    match header.stack {
        StackId::Lock | StackId::LockSeq | StackId::LockSeqRetry => on_locks(header, command, a, b),
        StackId::Kv
        | StackId::KvPb
        | StackId::KvPbSeq
        | StackId::KvPbSeqRetry
        | StackId::KvRaft
        | StackId::KvRaftRead => on_store(header, command, a, b),
        StackId::Table | StackId::TablePbSeq | StackId::TableRaft | StackId::TableRaftRead => {
            on_table(header, command, a, b)
        }
        StackId::Mirror | StackId::MirrorFifo => on_mirrors(header, command, a, b),
    }
}
