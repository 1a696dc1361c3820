// The format of calls in octets.
ghost use Rattle.interface.specs.Writings.{ReadBack, ReadOnly};

// Calls that are written are read back, and octets are read as the calls that they are written from.
pub fn calls_read_back()
    ensures back { ReadBack }
    ensures only { ReadOnly }
{}
