ghost use Rattle.std.specs.Prelude.{◌≡◌, List, Option, Some};
ghost use Rattle.disk.specs.Acts.{Act};
ghost use Rattle.disk.specs.Disk.{Disk, contents};
ghost use Rattle.disk.specs.Images.{image_by_word};
ghost use Rattle.node_device.specs.Telling.{Told, Did};
ghost use Rattle.node_device_mem.specs.Devices.{AreasFollow};

/// What comes of calls that do to the areas just what they stand for in the record.
pub fn areas_follow_the_acts()
    // The areas stay as the acts left them.
    ensures stay { (first : Disk) (old new : Option Told) (acts : List Act) → AreasFollow first old → Did old new acts
        → AreasFollow first new }

    // Then the image of all acts by the word 1 is what a read gives.
    ensures read { (first : Disk) (told : Told) → AreasFollow first (Some told) → image_by_word first told.acts 1 ≡ contents told.disk }
{}
