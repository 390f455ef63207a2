ghost use Rattle.std.specs.Prelude.{◌≡◌, ◌%◌, ◌++◌, ℕ, true, List};
ghost use Rattle.disk.specs.Acts.{Act};
ghost use Rattle.disk.specs.Disk.{Disk, after, may_leave};
ghost use Rattle.disk.specs.Images.{Trail, followed, image_of_kind, started};

/// What is so of areas that were at rest, after acts on them.
pub fn stops_leave_images()
    // Acts one after another lead as far as all of them.
    ensures both { (trail : Trail) (acts more : List Act) → followed trail (acts ++ more) ≡ followed (followed trail acts) more }

    // What is pending is what the acts leave pending.
    ensures disk { (first : Disk) (acts : List Act) → (followed (started first) acts).disk ≡ after first acts }

    // A stop by a word leaves what a crash after the acts may leave.
    ensures left { (first : Disk) (acts : List Act) (word : ℕ)
        → may_leave first acts (image_of_kind (word % 4) (followed (started first) acts)) ≡ true }
{}
