ghost use Rattle.std.specs.Prelude.{◌≡◌, ◌<◌, false};

use crate::given::{lacpdu, mac};
use crate::of_captures::BLOCKS;
use captures::{Cause, LinkType, Order, Unit, put_file_header, put_packet};
use lagstreams::{Sink, Source};
use lagtool_capture::{CaptureFault, CaptureSummary, ReadFault, Settings, report_capture};
use slowpdu::{Info, Marker, MarkerKind, frame};
use std::alloc::{AllocError, Global};
use std::io;
use std::io::Read;
use std::process::Abort;
use std::test::Fail;

/// A reader that gives at most so many octets in each read.
#[derive(Drop)]
struct Pieces<'a> {
    rest: &'a [u8],
    size: usize,
}

impl Read for Pieces<'_> {
    fn read(&mut self, buf: &mut [u8]) -> io::Result<usize> {
        let n = self.size.min(self.rest.len()).min(buf.len());
        let (now, later) = self.rest.split_at(n);
        buf[..n].copy_from_slice(now);
        self.rest = later;
        Ok(n)
    }
}

/// A port with priority 255 of the system with this number.
fn end(number: u8, key: u16, port: u16, state: u8) -> Info {
    let mut end = crate::given::end(number, key, port, state);
    end.port.priority = 255;
    end
}

/// The first 60 octets of a frame.
fn beginning(frame: &[u8; 124]) -> [u8; 60] {
    let mut octets = [0; 60];
    octets.copy_from_slice(&frame[..60]);
    octets
}

/// A capture of a link that comes up: A says that it knows nobody, B names A, A is synchronized, a broadcast, B is
/// synchronized, and says so again; A asks by a marker, and B sends a payload of 60 octets.
fn coming_up(alloc: Global, order: Order) -> Result<Vec<u8>, AllocError> {
    let nobody = Info::default();
    let one = lacpdu(mac(1), end(1, 1, 1, 0x4d), nobody);
    let two = lacpdu(mac(2), end(2, 7, 2, 0x05), end(1, 1, 1, 0x4d));
    let three = lacpdu(mac(1), end(1, 1, 1, 0x3d), end(2, 7, 2, 0x05));
    let five = lacpdu(mac(2), end(2, 7, 2, 0x3d), end(1, 1, 1, 0x3d));
    let asks = Marker {
        kind: MarkerKind::Information,
        port: 1,
        system: mac(1),
        id: 9,
    };
    let seven = frame(mac(1), &asks.encode());
    let mut out = Vec::new(alloc);
    put_file_header(&mut out, order, Unit::Micro, LinkType::Ethernet)?;
    put_packet(&mut out, order, 100, 0, 124, &one)?;
    put_packet(&mut out, order, 101, 0, 124, &two)?;
    put_packet(&mut out, order, 101, 5_000, 124, &three)?;
    put_packet(&mut out, order, 102, 0, 60, &[0xff; 60])?;
    put_packet(&mut out, order, 102, 250_000, 124, &five)?;
    put_packet(&mut out, order, 103, 250_000, 124, &five)?;
    put_packet(&mut out, order, 104, 1, 124, &seven)?;
    put_packet(&mut out, order, 99, 999_999, 60, &beginning(&five))?;
    Ok(out)
}

/// What is said of it.
const COMING_UP: &str = "\
P1 = 32768/02-00-00-00-00-01 key 1 port 255/1
P2 = 0/00-00-00-00-00-00 key 0 port 0/0
1 0.000000 02-00-00-00-00-01 lacpdu actor P1 state 4d active,aggregatable,synchronized,defaulted partner P2 partner-state 00 none max-delay 0
P3 = 32768/02-00-00-00-00-02 key 7 port 255/2
2 1.000000 02-00-00-00-00-02 lacpdu actor P3 state 05 active,aggregatable partner P1 partner-state 4d active,aggregatable,synchronized,defaulted max-delay 0
3 1.005000 02-00-00-00-00-01 lacpdu state 3d active,aggregatable,synchronized,collecting,distributing partner P3 partner-state 05 active,aggregatable
5 2.250000 02-00-00-00-00-02 lacpdu state 3d active,aggregatable,synchronized,collecting,distributing partner-state 3d active,aggregatable,synchronized,collecting,distributing
6 3.250000 02-00-00-00-00-02 lacpdu same
7 4.000001 02-00-00-00-00-01 marker port 1 system 02-00-00-00-00-01 id 9
8 -0.000001 02-00-00-00-00-02 refused fewer than 110 octets: 46
links 1 carrying 1
link 02-00-00-00-00-01 port 1 - 02-00-00-00-00-02 port 2: carries, both ways
end 02-00-00-00-00-01 port 1 is P1 names P3 named by 02-00-00-00-00-02 port 2 lacpdus 2 first 0.000000 last 1.005000 gaps 1.005000 to 1.005000 median 1.0 synchronized 0.000000 collecting 1.005000 distributing 1.005000
end 02-00-00-00-00-02 port 2 is P3 names P1 named by 02-00-00-00-00-01 port 1 lacpdus 3 first 1.000000 last 3.250000 gaps 1.000000 to 1.250000 median 1.0 synchronized 2.250000 collecting 2.250000 distributing 2.250000
finding 27 end 02-00-00-00-00-01 port 1 packet 3 at 1.005000: a wait of less than 2 seconds before synchronization (6.4.15). None is needed if both ends distribute: an end that waits lets links that come up together attach together.
finding 7 end 02-00-00-00-00-02 packet 8 at -0.000001: a frame of another length (6.4.2.3). Compare the frames at the other end of the cable: a device between may pad or cut them.
finding 28 end 02-00-00-00-00-02 packet 8 at -0.000001: more than a second earlier than the frame before it (6.4.4). If files were joined, sort the packets by reordercap and read them again; if a clock was set back, capture anew: rules 18 to 21 are left out, and no time is judged from a packet to an earlier one.
packets 8 slow 7 ends 2 findings 3
";

/// The records of the same capture, in JSON.
const RECORDS: &str = "\
{\"record\":\"frame\",\"packet\":1,\"seconds\":0.000000,\"interface\":0,\"source\":\"02-00-00-00-00-01\",\"destination\":\"01-80-c2-00-00-02\",\"tags\":0,\"kind\":\"lacpdu\",\"actor\":{\"system\":\"32768/02-00-00-00-00-01\",\"key\":1,\"port\":\"255/1\",\"state\":77},\"partner\":{\"system\":\"0/00-00-00-00-00-00\",\"key\":0,\"port\":\"0/0\",\"state\":0},\"max_delay\":0}
{\"record\":\"frame\",\"packet\":2,\"seconds\":1.000000,\"interface\":0,\"source\":\"02-00-00-00-00-02\",\"destination\":\"01-80-c2-00-00-02\",\"tags\":0,\"kind\":\"lacpdu\",\"actor\":{\"system\":\"32768/02-00-00-00-00-02\",\"key\":7,\"port\":\"255/2\",\"state\":5},\"partner\":{\"system\":\"32768/02-00-00-00-00-01\",\"key\":1,\"port\":\"255/1\",\"state\":77},\"max_delay\":0}
{\"record\":\"frame\",\"packet\":3,\"seconds\":1.005000,\"interface\":0,\"source\":\"02-00-00-00-00-01\",\"destination\":\"01-80-c2-00-00-02\",\"tags\":0,\"kind\":\"lacpdu\",\"actor\":{\"system\":\"32768/02-00-00-00-00-01\",\"key\":1,\"port\":\"255/1\",\"state\":61},\"partner\":{\"system\":\"32768/02-00-00-00-00-02\",\"key\":7,\"port\":\"255/2\",\"state\":5},\"max_delay\":0}
{\"record\":\"frame\",\"packet\":5,\"seconds\":2.250000,\"interface\":0,\"source\":\"02-00-00-00-00-02\",\"destination\":\"01-80-c2-00-00-02\",\"tags\":0,\"kind\":\"lacpdu\",\"actor\":{\"system\":\"32768/02-00-00-00-00-02\",\"key\":7,\"port\":\"255/2\",\"state\":61},\"partner\":{\"system\":\"32768/02-00-00-00-00-01\",\"key\":1,\"port\":\"255/1\",\"state\":61},\"max_delay\":0}
{\"record\":\"frame\",\"packet\":6,\"seconds\":3.250000,\"interface\":0,\"source\":\"02-00-00-00-00-02\",\"destination\":\"01-80-c2-00-00-02\",\"tags\":0,\"kind\":\"lacpdu\",\"actor\":{\"system\":\"32768/02-00-00-00-00-02\",\"key\":7,\"port\":\"255/2\",\"state\":61},\"partner\":{\"system\":\"32768/02-00-00-00-00-01\",\"key\":1,\"port\":\"255/1\",\"state\":61},\"max_delay\":0}
{\"record\":\"frame\",\"packet\":7,\"seconds\":4.000001,\"interface\":0,\"source\":\"02-00-00-00-00-01\",\"destination\":\"01-80-c2-00-00-02\",\"tags\":0,\"kind\":\"marker\",\"port\":1,\"system\":\"02-00-00-00-00-01\",\"id\":9}
{\"record\":\"frame\",\"packet\":8,\"seconds\":-0.000001,\"interface\":0,\"source\":\"02-00-00-00-00-02\",\"destination\":\"01-80-c2-00-00-02\",\"tags\":0,\"kind\":\"refused\",\"fault\":\"fewer than 110 octets: 46\"}
{\"record\":\"link\",\"end\":{\"interface\":0,\"source\":\"02-00-00-00-00-01\",\"port\":1},\"partner\":{\"interface\":0,\"source\":\"02-00-00-00-00-02\",\"port\":2},\"carries\":true,\"state\":\"carries, both ways\"}
{\"record\":\"end\",\"interface\":0,\"source\":\"02-00-00-00-00-01\",\"port\":1,\"lacpdus\":2,\"identity\":{\"system\":\"32768/02-00-00-00-00-01\",\"key\":1,\"port\":\"255/1\"},\"names\":{\"system\":\"32768/02-00-00-00-00-02\",\"key\":7,\"port\":\"255/2\"},\"named_by\":{\"interface\":0,\"source\":\"02-00-00-00-00-02\",\"port\":2},\"first\":0.000000,\"last\":1.005000,\"shortest\":1.005000,\"longest\":1.005000,\"median\":1.0,\"synchronized\":{\"began\":0.000000,\"ended\":null},\"collecting\":{\"began\":1.005000,\"ended\":null},\"distributing\":{\"began\":1.005000,\"ended\":null}}
{\"record\":\"end\",\"interface\":0,\"source\":\"02-00-00-00-00-02\",\"port\":2,\"lacpdus\":3,\"identity\":{\"system\":\"32768/02-00-00-00-00-02\",\"key\":7,\"port\":\"255/2\"},\"names\":{\"system\":\"32768/02-00-00-00-00-01\",\"key\":1,\"port\":\"255/1\"},\"named_by\":{\"interface\":0,\"source\":\"02-00-00-00-00-01\",\"port\":1},\"first\":1.000000,\"last\":3.250000,\"shortest\":1.000000,\"longest\":1.250000,\"median\":1.0,\"synchronized\":{\"began\":2.250000,\"ended\":null},\"collecting\":{\"began\":2.250000,\"ended\":null},\"distributing\":{\"began\":2.250000,\"ended\":null}}
{\"record\":\"finding\",\"rule\":27,\"name\":\"a wait of less than 2 seconds before synchronization\",\"clause\":\"6.4.15\",\"advice\":\"None is needed if both ends distribute: an end that waits lets links that come up together attach together.\",\"end\":{\"interface\":0,\"source\":\"02-00-00-00-00-01\",\"port\":1},\"partner\":{\"interface\":0,\"source\":\"02-00-00-00-00-02\",\"port\":2},\"packet\":3,\"seconds\":1.005000}
{\"record\":\"finding\",\"rule\":7,\"name\":\"a frame of another length\",\"clause\":\"6.4.2.3\",\"advice\":\"Compare the frames at the other end of the cable: a device between may pad or cut them.\",\"end\":{\"interface\":0,\"source\":\"02-00-00-00-00-02\",\"port\":null},\"partner\":null,\"packet\":8,\"seconds\":-0.000001}
{\"record\":\"finding\",\"rule\":28,\"name\":\"more than a second earlier than the frame before it\",\"clause\":\"6.4.4\",\"advice\":\"If files were joined, sort the packets by reordercap and read them again; if a clock was set back, capture anew: rules 18 to 21 are left out, and no time is judged from a packet to an earlier one.\",\"end\":{\"interface\":0,\"source\":\"02-00-00-00-00-02\",\"port\":null},\"partner\":null,\"packet\":8,\"seconds\":-0.000001}
{\"record\":\"counts\",\"packets\":8,\"slow\":7,\"ends\":2,\"findings\":3,\"beyond\":0}
";

/// The outcome of an explanation, and what was written.
type Outcome = (Result<CaptureSummary, CaptureFault>, String);

/// Explains octets that are read in pieces of this size.
fn explained(
    alloc: Global,
    settings: Settings,
    octets: &[u8],
    size: usize,
) -> Result<Outcome, AllocError> {
    let mut source = Source::new(Pieces { rest: octets, size });
    let mut sink = Sink::new(Vec::new(alloc));
    let answer = report_capture(alloc, settings, &mut source, &mut sink);
    let text = String::from_utf8_lossy(alloc, sink.into_inner().as_slice())?;
    Ok((answer, text))
}

fn settings(all: bool, frames: bool, json: bool) -> Settings {
    Settings { all, frames, json }
}

/// A line for each frame, with what differs.
const CHANGES: Settings = Settings {
    all: false,
    frames: true,
    json: false,
};

#[test]
fn a_link_that_comes_up_is_explained(rt: HostRuntime) -> Result<(), Fail> {
    let alloc = rt.alloc();
    let wanted = Ok(CaptureSummary {
        packets: 8,
        slow: 7,
        findings: 3,
        fault: None,
    });
    for order in [Order::Big, Order::Little] {
        let octets = coming_up(alloc, order)?;
        for size in [1, 7, 100, 4096] {
            let (answer, text) = explained(alloc, CHANGES, &octets, size)?;
            assert_eq!(rt; answer, wanted);
            assert_eq!(rt; text.as_str(), COMING_UP, "{size}");
        }
    }
    Ok(())
}

#[test]
fn a_record_without_a_packet_has_a_number(rt: HostRuntime) -> Result<(), Fail> {
    // A custom block and four packets: tshark numbers them 1 to 5.
    for size in [1, 7, 4096] {
        let (_, text) = explained(rt.alloc(), CHANGES, &BLOCKS, size)?;
        assert_eq!(rt;
            text.as_str(),
            "links 0 carrying 0\npackets 5 slow 0 ends 0 findings 0\n",
            "{size}"
        );
    }
    Ok(())
}

#[test]
fn each_line_is_a_record(rt: HostRuntime) -> Result<(), Fail> {
    let alloc = rt.alloc();
    let octets = coming_up(alloc, Order::Big)?;
    let (_, text) = explained(alloc, settings(false, true, true), &octets, 100)?;
    assert_eq!(rt; text.as_str(), RECORDS);
    let (_, text) = explained(alloc, settings(false, false, true), &octets, 100)?;
    let behind = RECORDS.split_once("110 octets: 46\"}\n");
    assert_eq!(rt; text.as_str(), behind.map_or("", |(_, behind)| behind));
    Ok(())
}

#[test]
fn every_field_or_no_frame_is_shown(rt: HostRuntime) -> Result<(), Fail> {
    let alloc = rt.alloc();
    let octets = coming_up(alloc, Order::Big)?;
    let (_, text) = explained(alloc, settings(true, true, false), &octets, 4096)?;
    let line =
        "6 3.250000 02-00-00-00-00-02 lacpdu actor P3 state 3d active,aggregatable,synchronized,collecting,distributing partner P1 partner-state 3d active,aggregatable,synchronized,collecting,distributing max-delay 0\n";
    assert!(rt; text.as_str().contains(line), "{text}");
    let (_, text) = explained(alloc, settings(false, false, false), &octets, 4096)?;
    let text = text.as_str();
    assert!(rt; !text.contains("lacpdu actor"), "{text}");
    // The links come first, then the legend.
    let first = COMING_UP
        .split_once("links 1")
        .map_or("", |(_, behind)| behind);
    let first = first.split_once("end ").map_or("", |(links, _)| links);
    let legend = "\
P1 = 32768/02-00-00-00-00-01 key 1 port 255/1
P2 = 0/00-00-00-00-00-00 key 0 port 0/0
P3 = 32768/02-00-00-00-00-02 key 7 port 255/2
end 02-00-00-00-00-01 port 1 is P1";
    let begins = format!(in alloc; "links 1{first}{legend}")?;
    assert!(rt; text.starts_with(begins.as_str()), "{text}");
    assert!(rt;
        text.contains("packets 8 slow 7 ends 2 findings 3\n"),
        "{text}"
    );
    Ok(())
}

#[test]
fn what_is_cut_short_is_told_at_every_length(rt: HostRuntime) -> Result<(), Fail> {
    let alloc = rt.alloc();
    let octets = coming_up(alloc, Order::Little)?;
    for length in 0..octets.len() {
        let (answer, _) = explained(alloc, CHANGES, &octets[..length], 4096)?;
        let cause = match answer {
            Ok(summary) => summary.fault.map(|fault| fault.cause),
            Err(_) => None,
        };
        // The header has 24 octets, a packet 16 and its own.
        let ends = [24, 164, 304, 444, 520, 660, 800, 940];
        let wanted = if ends.contains(&length) {
            None
        } else {
            Some(Cause::CutShort)
        };
        assert_eq!(rt; cause, wanted, "{length}");
    }
    Ok(())
}

#[test]
fn what_is_no_capture_is_refused_and_says_where(rt: HostRuntime) -> Result<(), Fail> {
    let time = "octet 40: a time before 1970 or after the year 2554";
    for (at, cause, wanted) in [
        (0, Cause::Gzip, "octet 0: packed by gzip: unpack it first"),
        (40, Cause::Time, time),
    ] {
        let text = format!(in rt.alloc(); "{}", ReadFault { at, cause })?;
        assert_eq!(rt; text.as_str(), wanted);
    }
    let alloc = rt.alloc();
    let rows: [(&[u8], Cause); 3] = [
        (&[0x1f, 0x8b, 0x08, 0x00], Cause::Gzip),
        (b"GIF89a", Cause::Format(0x4749_4638)),
        (b"", Cause::CutShort),
    ];
    for (octets, cause) in rows {
        let (answer, _) = explained(alloc, CHANGES, octets, 4096)?;
        let wanted = Ok(CaptureSummary {
            packets: 0,
            slow: 0,
            findings: 0,
            fault: Some(ReadFault { at: 0, cause }),
        });
        assert_eq!(rt; answer, wanted);
    }
    Ok(())
}
