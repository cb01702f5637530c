ghost use Rattle.devices.specs.Rules.{Rules};

/// What the trait's contract says, once more in the words of the subject.
pub fn rules_hold()
    ensures { Rules }
{}
