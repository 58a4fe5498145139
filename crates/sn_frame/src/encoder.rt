//! From a frame to its octets (MQTT-SN 1.2 sections 5.2 and 5.4).

ghost use Rattle.std.specs.Prelude.{◌≡◌, ◌<◌, ◌++◌, ◌↔◌, ◌⊎◌, OnOk, OnErr, Err};
ghost use Rattle.sn_frame.specs.declared.frame.TheConstants.{MAX_FRAME};
ghost use Rattle.sn_frame.specs.Bodies.{IsMessage};
ghost use Rattle.sn_frame.specs.Grammar.{Spells, spelling, total_of};

use crate::fault::EncodeFault;
use crate::frame::Frame;
use std::alloc::Global;

mod body;
mod forms;
mod parts;

use body::{append_frame, is_message};

/// Appends the canonical spelling of a frame: Length has one octet wherever the total fits 255.
pub fn encode(_alloc: Global, frame: &Frame, out: &mut Vec<u8>) -> Result<(), EncodeFault>
    ensures ok { OnOk result (out.new.items ≡ out.old.items ++ spelling frame.now) }
    ensures spelled { OnOk result (Spells (spelling frame.now) frame.now) }

    // A size that the message does not allow is found first, and needs no memory.
    ensures body { (result ≡ Err EncodeFault.Body) ↔ ¬ (IsMessage frame.now) }

    // TooLong is said of frames that are too long and of no other, and of all of them unless memory
    // runs out.
    ensures too_long { result ≡ Err EncodeFault.TooLong → IsMessage frame.now
        × (MAX_FRAME < total_of frame.now) }
    ensures refused { IsMessage frame.now → MAX_FRAME < total_of frame.now
        → (result ≡ Err EncodeFault.TooLong) ⊎ (result ≡ Err EncodeFault.Memory) }

    ensures err { OnErr result (out.new.items ≡ out.old.items) }
{
    if !is_message(frame) {
        return Err(EncodeFault::Body);
    }
    append_frame(out, frame)
}
