ghost use Rattle.node_histories.specs.HistoryLaws.{HistoriesAreRuns, RunsGoOn, WhatIsHeardWasSent, WhatWasSentIsNotForged};
ghost use Rattle.node_histories.specs.Translations.{TranslationsAreByNode};
ghost use Rattle.node_histories.specs.ViewLaws.{LessIsExplained, SeenGoesOn, ShowsItself, ViewGoesOn, ViewsGoOn};

/// Whatever happens at nodes that take inputs where they may, hear only what was sent to them, and start again from what they
/// keep, is a run of the network that loses, copies and reorders packets and stops nodes. It holds of all handlers.
pub fn histories_are_runs<S, K, I, O, M>()
    // There is a schedule which that network allows, whose steps do at nodes just what the history has, in its order. After it each
    // node is up, in the state that its own part of the history makes; each packet that was ever sent has one copy in flight; and
    // clients saw the inputs and outputs in their order.
    ensures are_runs { HistoriesAreRuns S K I O M }

    // Each such schedule goes on where the history does. So one schedule has all moments of a history, each at its place.
    ensures go_on { RunsGoOn S K I O M }

    // What the premise says: whatever a node hears from another, that one sent it in an earlier happening, and conversely.
    ensures heard_was_sent { WhatIsHeardWasSent S K I O M }
    ensures sent_is_not_forged { WhatWasSentIsNotForged S K I O M }
{}

/// What happens at nodes may be told in other words, where each node's words depend on its own past alone: what there is of a node in
/// the whole is then what there is of it by itself.
pub fn translations_are_by_node<T, X, A>()
    ensures { TranslationsAreByNode T X A }
{}

/// The order that explains what was seen explains each view of it: each request that was seen is in the view, and each reply of the view
/// was seen, with the requests before it that were seen before it. It holds of every machine, and views may be taken of views: of what
/// a network shows, what its nodes note, and of that what clients note.
pub fn less_is_explained<S, C, O>()
    ensures explained { LessIsExplained S C O }

    // What was seen is a view of itself, and a view of a view is a view.
    ensures shows_itself { ShowsItself C O }
    ensures views_of_views { ViewsGoOn C O }

    // Step by step: more may be seen where its requests are in the view; and more may be told in the view where its replies were seen.
    ensures seen_goes_on { SeenGoesOn C O }
    ensures view_goes_on { ViewGoesOn C O }
{}
