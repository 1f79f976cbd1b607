// What holds of every step of every program.
ghost use Rattle.machine.specs.Law.{Law};

// Steps are determined by code and state, lead onward, and end without a trace; runs only add to what they make and print.
pub fn steps_obey_the_law()
    ensures law { Law }
{}
