ghost use Rattle.std.specs.Prelude.{◌≡◌, ◌<◌, [], IfSome, length};
ghost use Rattle.std.specs.Option.{option_copied};
ghost use Rattle.claim_verdicts.specs.Backups.{is_at_backup, is_wrong_at_backup, is_wrong_between, passes, redirects};
ghost use Rattle.claim_verdicts.specs.Places.{first_wrong};

use vst_base::{Item, PbOut};

// Whether an item is an input at the backup.
fn is_at_backup<C, O>(item: &Item<C, PbOut<O>>) -> bool
    ensures { result ≡ is_at_backup item.now }
{
    match item {
        Item::Input(node, _) => node.index() == 1,
        Item::Output(_, _) => false,
    }
}

// Whether an item is a redirection by the backup.
fn redirects<C, O>(item: &Item<C, PbOut<O>>) -> bool
    ensures { result ≡ redirects item.now }
{
    match item {
        Item::Output(node, PbOut::Redirect) => node.index() == 1,
        _ => false,
    }
}

// Whether an item at the backup is wrong between its neighbours.
fn is_wrong_between<C, O>(
    after_input: bool,
    item: &Item<C, PbOut<O>>,
    next: Option<&Item<C, PbOut<O>>>,
) -> bool
    ensures { result ≡ is_wrong_between after_input item.now (option_copied next.entry) }
{
    match item {
        Item::Input(node, _) if node.index() == 1 => match next {
            Some(next) => !redirects(next),
            None => true,
        },
        Item::Output(node, _) if node.index() == 1 => !(redirects(item) && after_input),
        _ => false,
    }
}

// The first place of a trace that is wrong at the backup.
pub(crate) fn wrong_at_backup<C, O>(trace: &[Item<C, PbOut<O>>]) -> Option<usize>
    ensures first { result ≡ first_wrong is_wrong_at_backup [] trace.now }
    ensures within { IfSome result (λ place. place < length trace.now) }
{
    let mut after_input = false;
    for (place, item) in trace.iter().enumerate() {
        if is_wrong_between(after_input, item, trace.get(place + 1)) {
            return Some(place);
        }
        after_input = is_at_backup(item);
    }
    None
}
