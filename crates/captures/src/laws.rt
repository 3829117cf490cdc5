ghost use Rattle.std.specs.Prelude.{◌≡◌, ◌≤◌, ◌<◌, ◌+◌, ◌^◌, ◌++◌, ℕ, List, [], length, slice_range, Some, None, Ok, Err};
ghost use Rattle.captures.specs.declared.fault.Fault.{Fault};
ghost use Rattle.captures.specs.declared.fault.Stop.TheVariants.{Refused};
ghost use Rattle.captures.specs.declared.format.Format.TheVariants as formats;
ghost use Rattle.captures.specs.declared.interface.Interface.{Interface};
ghost use Rattle.captures.specs.declared.link.LinkType.{LinkType};
ghost use Rattle.captures.specs.declared.number.Order.{Order};
ghost use Rattle.captures.specs.declared.reader.Step.{Step};
ghost use Rattle.captures.specs.declared.time.Unit.{Unit};
ghost use Rattle.captures.specs.Pcap.{most_captured};
ghost use Rattle.captures.specs.Steps.{ReaderState, step, taking};
ghost use Rattle.captures.specs.Times.{nanoseconds};
ghost use Rattle.captures.specs.Writing.{file_header, packet_octets};

// promise: a written pcap reads as it was
// contract: `what_is_written_is_read`; `put_file_header`, `put_packet`, `LinkType::number`
/// What is written of a file of pcap reads as it was, whatever follows it: the header as the format with its order of
/// octets, unit and link type, and each packet with its time, its length and its octets.
pub fn what_is_written_is_read()
    ensures header { (order : Order) (unit : Unit) (link : LinkType) (rest : List ℕ)
        → step (record { format = formats.Start; interfaces = [] }) (file_header order unit link ++ rest)
        ≡ taking 24 None (formats.Packet order unit link) [] }
    ensures packet { (order : Order) (unit : Unit) (link : LinkType) (interfaces : List Interface)
        (seconds fraction original : ℕ) (octets rest : List ℕ) → seconds < 2 ^ 32 → fraction < 2 ^ 32 → original < 2 ^ 32
        → length octets ≤ most_captured
        → step (record { format = formats.Packet order unit link; interfaces = interfaces })
        (packet_octets order seconds fraction original octets ++ rest)
        ≡ taking (16 + length octets)
        (Some (record {
          interface = 0;
          link = link;
          time = Some (nanoseconds unit seconds fraction);
          original = original;
          start = 16;
          end = 16 + length octets;
        }))
        (formats.Packet order unit link) interfaces }
    ensures octets { (order : Order) (seconds fraction original : ℕ) (octets rest : List ℕ)
        → slice_range (packet_octets order seconds fraction original octets ++ rest) 16 (16 + length octets) ≡ octets }
{}

// promise: what a step answers does not depend on the octets behind
// contract: `a_step_stays`
/// What stands at the beginning of octets is the same, whatever follows them: a step, or why reading stops.
pub fn a_step_stays()
    ensures taken { (s : ReaderState) (b more : List ℕ) (x : Step × ReaderState) → step s b ≡ Ok x → step s (b ++ more) ≡ Ok x }
    ensures refused { (s : ReaderState) (b more : List ℕ) (fault : Fault) → step s b ≡ Err (Refused fault)
        → step s (b ++ more) ≡ Err (Refused fault) }
{}
