// Texts and what they hold, computed by the definitions.
ghost use Rattle.script.specs.Examples.{TextsAreRead};

pub fn texts_are_read()
    ensures { TextsAreRead }
{}
