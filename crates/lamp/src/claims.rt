// What is claimed of the doubt lamp on any table (specs/Doubt.antt), as the contract of a function that does nothing.

ghost use Rattle.lamp.specs.Doubt.{OutIfAccurate};

// The lamp is out exactly if no live station suspects a live one, on a table that is not refused.
pub fn out_if_accurate()
    ensures { OutIfAccurate }
{}
