ghost use Rattle.disk.specs.Between.{may_become_between};
ghost use Rattle.disk.specs.Disk.{may_become};
ghost use Rattle.slots.specs.SavingLaws.{MoveKeeps, OpenKeeps, RestsIsReady, SaveDone, SaveKeeps};

/// What holds of opening and saving states of any type, whatever a slot is made of.
pub fn laws<K>()
    // At each moment of a save a crash leaves the state from before it or the new one, and after it the new one.
    ensures saves { SaveKeeps may_become K }

    // What was saved is what the areas open as, whatever the slots held.
    ensures saved { SaveDone K }

    // What opened is ready for a save.
    ensures ready { RestsIsReady K }

    // Opening leaves what it finds, whatever was pending before; where nothing was saved yet, the first state or nothing. So it does
    // where a fault cuts it short.
    ensures opens { OpenKeeps may_become K }

    // Opening a slot of an older form leaves the state that it finds, also where a fault cuts it short, and saves it in the present
    // form.
    ensures moves { MoveKeeps may_become K }
{}

/// The same where a crash may leave an area with a length between two of those that it had.
pub fn laws_between<K>()
    ensures saves { SaveKeeps may_become_between K }
    ensures opens { OpenKeeps may_become_between K }
    ensures moves { MoveKeeps may_become_between K }
{}
