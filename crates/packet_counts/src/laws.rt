// The law that written packets are counted right.
ghost use Rattle.std.specs.Prelude.{◌≡◌, List, All, length};
ghost use Rattle.process_network.specs.PacketStar.{written};
ghost use Rattle.cosim_model.specs.Packets.{Packet, IsWritable};
ghost use Rattle.rp_packet.specs.Spelling.{packet_bytes};
ghost use Rattle.rp_packet.specs.Streams.{packet_codec};
ghost use Rattle.every_schedule.specs.Counts.{packets_in};

/// What is written for packets counts as many.
pub fn written_packets()
    ensures { (ps : List Packet) → All IsWritable ps
        → packets_in packet_codec (written packet_bytes ps) ≡ length ps }
{}
