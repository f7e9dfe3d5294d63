//! One frame in full, to compare another program with.
ghost use Rattle.std.specs.Prelude.{◌≡◌};
ghost use Rattle.message.specs.declared.Message.TheVariants.{Agree};
ghost use Rattle.frame.specs.declared.Packet.TheVariants.{Data};
ghost use Rattle.frame.specs.Laws.{agree_to_seven};
ghost use Rattle.frame.specs.Packets.{written};

/// The frame that agrees to day 7, as message 1, with 1 as the next number expected.
#[tactic(auto, unfolding(octets::specs::Numbers::bytes_of))]
pub fn agree_to_seven() -> [u8; 17]
    ensures bytes { result ≡ agree_to_seven }
    ensures frame { result ≡ written (Data 1 1 (Agree 7)) }
{
    [
        0x04, 0x00, 0x00, 0x00, 0x07, 0x00, 0x00, 0x00, 0x01, 0x00, 0x00, 0x00, 0x01, 0x44, 0x01,
        0x00, 0x11,
    ]
}
