// A link that is served where no answer is held back.
ghost use Rattle.door_laws.specs.Laws.{NothingIsHeldBack};

/// Says what the messages of a link were answered if no keeper of its kind lets rows wait: whatever has no answer added
/// nothing. It does nothing.
pub fn nothing_is_held_back()
    ensures { NothingIsHeldBack }
{}
