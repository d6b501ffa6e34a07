ghost use Rattle.std.specs.Prelude.{◌≡◌};
ghost use Rattle.cosim_model.specs.Packets.{Packet as PacketValue};
ghost use Rattle.rp_text.specs.Texts.{packet_text, IsPackable};

/// A line is that of one packet at most.
pub fn one_line()
    ensures { (v w : PacketValue) → IsPackable v → IsPackable w → packet_text v ≡ packet_text w → v ≡ w }
{}
