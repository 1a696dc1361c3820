// What a line of the input may ask.

// The two kinds of line.
#[derive(Clone, Copy, PartialEq, Eq, Debug)]
pub enum Kind {
    Ethernet,
    Cell,
}

#[derive(Debug, Drop)]
pub enum Command {
    // Fill the Ethernet line with these rate codes.
    FillEthernet { codes: Vec<u8> },
    // Fill the cell line.
    FillCell { ports: u8, size: u16, time: u32 },
    // Tell the wire time of a length on a port.
    WireTime { kind: Kind, port: u8, length: u16 },
}
