//! Steps through many edges, and a step with an arm for each wire.

/// How many edges of a run were accepted, and how many were refused.
#[derive(Clone, Copy, PartialEq, Eq, Debug)]
pub struct Counts {
    pub accepted: u64,
    pub refused: u64,
}

/// Evaluates `$done`, an expression over an edge, in an arm for each wire. In an arm, `$edge` is a
/// copy whose wire is a constant, so the compiler leaves out what edges of other wires need. The
/// contracts of the functions that `$done` calls refuse a wrong arm.
///
/// `$edge` is a variable of type `Edge`. A crate that uses the macro imports `vme_model::Wire`.
#[macro_export]
macro_rules! by_wire {
    ($edge:ident => $done:expr) => {
        match $edge.wire {
            Wire::Bg(level) => $crate::by_wire!($edge, Wire::Bg(level), $done),
            Wire::Bclr => $crate::by_wire!($edge, Wire::Bclr, $done),
            Wire::Iack => $crate::by_wire!($edge, Wire::Iack, $done),
            Wire::Berr => $crate::by_wire!($edge, Wire::Berr, $done),
            Wire::Br => $crate::by_wire!($edge, Wire::Br, $done),
            Wire::BgOut => $crate::by_wire!($edge, Wire::BgOut, $done),
            Wire::Bbsy => $crate::by_wire!($edge, Wire::Bbsy, $done),
            Wire::Addr => $crate::by_wire!($edge, Wire::Addr, $done),
            Wire::AddressStrobe => $crate::by_wire!($edge, Wire::AddressStrobe, $done),
            Wire::DataStrobe => $crate::by_wire!($edge, Wire::DataStrobe, $done),
            Wire::Irq => $crate::by_wire!($edge, Wire::Irq, $done),
            Wire::IackOut => $crate::by_wire!($edge, Wire::IackOut, $done),
            Wire::Dtack => $crate::by_wire!($edge, Wire::Dtack, $done),
        }
    };
    ($edge:ident, $wire:expr, $done:expr) => {{
        let mut $edge = $edge;
        $edge.wire = $wire;
        $done
    }};
}
