// What is left to do, as text.
use cpu::deed::{Deed, Loading, Privileged, Storing};
use std::alloc::{AllocError, Global};

/// What is left to do: a load by its width and address, a store by its value too, and a privileged deed by the name of
/// its instruction with the values that it takes.
pub fn described(heap: Global, deed: Deed) -> Result<String, AllocError> {
    match deed {
        Deed::Finished => String::from_str(heap, "done"),
        Deed::Load(Loading { width, address, .. }) => {
            format!(in heap; "load {width} at {address:08X}")
        }
        Deed::Store(
            Storing {
                width,
                address,
                value,
                ..
            },
        ) => format!(in heap; "store {width} at {address:08X} of {value:X}"),
        Deed::Probe { address } => format!(in heap; "probe at {address:08X}"),
        Deed::Trap => String::from_str(heap, "trap"),
        Deed::Call => String::from_str(heap, "call"),
        Deed::Illegal => String::from_str(heap, "illegal"),
        Deed::Privileged(deed) => privileged(heap, deed),
    }
}

fn privileged(heap: Global, deed: Privileged) -> Result<String, AllocError> {
    match deed {
        Privileged::ReadMsr { rt } => format!(in heap; "mfmsr r{rt}"),
        Privileged::WriteMsr { value } => format!(in heap; "mtmsr {value:X}"),
        Privileged::WriteExternalEnable { enable } => format!(in heap; "wrtee {enable}"),
        Privileged::Return => String::from_str(heap, "rfi"),
        Privileged::ReadSpecial { rt, number } => format!(in heap; "mfspr r{rt} from {number}"),
        Privileged::WriteSpecial { number, value } => format!(in heap;
            "mtspr {value:X} to {number}"
        ),
        Privileged::ReadEntry { rt, entry, word } => format!(in heap;
            "tlbre r{rt} from entry {entry} word {word}"
        ),
        Privileged::WriteEntry { entry, word, value } => format!(in heap;
            "tlbwe {value:X} to entry {entry} word {word}"
        ),
        Privileged::SearchEntries { rt, address, rc } => format!(in heap;
            "tlbsx r{rt} of {address:08X} record {rc}"
        ),
        Privileged::Synchronize => String::from_str(heap, "tlbsync"),
    }
}
