//! Certificates as text, told by hand.

use crate::examples::{KEPT_PAYS, KEPT_REPORTS, reason_count};
use example_sets::TRANSFER_CERTIFICATE;
use order_facts::{Node, Nodes};
use prog_tree::Sequence;
use robust_cert::{
    Certificate, CertificateText, Chain, Entries, EntryQuestion, JsonFault, Reason, Told,
    from_json, to_json,
};
use std::alloc::{AllocError, Global};
use std::process::Abort;
use std::thread::Threads;

/// The certificate of a set without programs.
const EMPTY: &str = "{\"entries\":[],\"levels\":[],\"version\":1}";

/// That of the ledger set.
const LEDGER: &str = "{\"entries\":[],\"levels\":[2,3,2],\"version\":1}";

/// Each kind of entry and node, numbers at the ends of their ranges, and empty lists.
const EACH_KIND: &str =
    "{\"entries\":[[\"apart\",0,0,4294967295,1,[[\"n\",2],[\"u\",4294967295],[\"v\",0],\
    [\"n\",-9223372036854775808],[\"n\",9223372036854775807]]],[\"apart\",1,0,1,0,[]],\
    [\"cover\",1,1,1,1,7,4294967295,[]],[\"cover\",1,1,2,1,0,0,[[]]]],\
    \"levels\":[0,4294967295],\"version\":1}";

/// The greatest number of accesses, and more numbers than levels.
const BODIES: &str = "{\"bodies\":[0,4294967295,7],\"entries\":[],\"levels\":[3],\"version\":2}";

/// Texts, and what is written of them again.
const WRITTEN: [(&str, &str); 13] = [
    (EMPTY, EMPTY),
    (LEDGER, LEDGER),
    (KEPT_REPORTS, KEPT_REPORTS),
    (TRANSFER_CERTIFICATE, TRANSFER_CERTIFICATE),
    (EACH_KIND, EACH_KIND),
    (
        "{ \"version\" : 1,\n \"levels\" : [ 3 ] , \"entries\" : [ ] }\n",
        "{\"entries\":[],\"levels\":[3],\"version\":1}",
    ),
    (
        "{\"entries\":7,\"version\":9,\"entries\":[],\"levels\":[1],\"levels\":[3],\"version\":1}",
        "{\"entries\":[],\"levels\":[3],\"version\":1}",
    ),
    (
        "{\"\\u0065ntries\":[[\"\\u0061part\",0,0,0,1,[[\"\\u006d\",5]]]],\
        \"levels\":[],\"version\":1}",
        "{\"entries\":[[\"apart\",0,0,0,1,[[\"m\",5]]]],\"levels\":[],\"version\":1}",
    ),
    (KEPT_PAYS, KEPT_PAYS),
    (BODIES, BODIES),
    (
        "{\"bodies\":[],\"entries\":[],\"levels\":[],\"version\":2}",
        EMPTY,
    ),
    (
        "{\"version\":2,\"levels\":[2,3,2],\"entries\":[],\"bodies\":[0,0,0]}",
        LEDGER,
    ),
    (
        "{\"bodies\":[0,0],\"entries\":[],\"levels\":[3],\"version\":2}",
        "{\"bodies\":[0,0],\"entries\":[],\"levels\":[3],\"version\":2}",
    ),
];

/// No JSON at all.
const NO_JSON: [&str; 9] = [
    "",
    " \n\t\n",
    "{\"entries\":[],\"levels\":[],\"version\":1,}",
    "{\"entries\":[],\"levels\":[],\"version\":1} 2",
    "{'version':1}",
    "{\"entries\":[],\"levels\":[],\"version\":01}",
    "{\"entries\":[],\"levels\":[],\"version\":1",
    "\"\\ud800\"",
    "{\"entries\":[],\"levels\":[1e999],\"version\":1}",
];

/// Members that are missing, too many or of another type, and versions that are no whole number.
const MEMBERS: [&str; 29] = [
    "[]",
    "1",
    "null",
    "{}",
    "{\"version\":1}",
    "{\"levels\":[],\"version\":1}",
    "{\"entries\":[],\"version\":1}",
    "{\"entries\":[],\"levels\":[]}",
    "{\"entries\":[],\"levels\":[],\"versiom\":1}",
    "{\"bodies\":[],\"entries\":[],\"levels\":[],\"version\":1}",
    "{\"entries\":[],\"levels\":[],\"version\":2}",
    "{\"bodies\":0,\"entries\":[],\"levels\":[],\"version\":2}",
    "{\"bodies\":null,\"entries\":[],\"levels\":[],\"version\":2}",
    "{\"bodies\":[[]],\"entries\":[],\"levels\":[],\"version\":2}",
    "{\"bodies\":[],\"entries\":[],\"levels\":[],\"more\":0,\"version\":2}",
    "{\"entries\":[],\"levels\":[],\"more\":0,\"version\":1}",
    "{\"entries\":[],\"levels\":[],\"version\":1,\"w\":1}",
    "{\"Entries\":[],\"levels\":[],\"version\":1}",
    "{\"entries\":{},\"levels\":[],\"version\":1}",
    "{\"entries\":[],\"levels\":0,\"version\":1}",
    "{\"entries\":null,\"levels\":[],\"version\":1}",
    "{\"entries\":[],\"levels\":\"[]\",\"version\":1}",
    "{\"entries\":[],\"levels\":[],\"version\":\"1\"}",
    "{\"entries\":[],\"levels\":[],\"version\":null}",
    "{\"entries\":[],\"levels\":[],\"version\":[1]}",
    "{\"entries\":[],\"levels\":[],\"version\":1.0}",
    "{\"entries\":[],\"levels\":[],\"version\":1e0}",
    "{\"entries\":[],\"levels\":[],\"version\":-0}",
    "{\"entries\":[],\"levels\":[],\"version\":18446744073709551616}",
];

/// Entries and nodes of another form.
const ENTRIES: [&str; 28] = [
    "{\"entries\":[7],\"levels\":[],\"version\":1}",
    "{\"entries\":[[]],\"levels\":[],\"version\":1}",
    "{\"entries\":[\"apart\"],\"levels\":[],\"version\":1}",
    "{\"entries\":[[\"apart\",0,0,0,1]],\"levels\":[],\"version\":1}",
    "{\"entries\":[[\"apart\",0,0,0,1,[],[]]],\"levels\":[],\"version\":1}",
    "{\"entries\":[[\"apart\",0,0,1,[]]],\"levels\":[],\"version\":1}",
    "{\"entries\":[[\"Apart\",0,0,0,1,[]]],\"levels\":[],\"version\":1}",
    "{\"entries\":[[\"exposed\",0,0,0,1,[]]],\"levels\":[],\"version\":1}",
    "{\"entries\":[[0,0,0,0,1,[]]],\"levels\":[],\"version\":1}",
    "{\"entries\":[[\"cover\",0,0,0,1,[]]],\"levels\":[],\"version\":1}",
    "{\"entries\":[[\"apart\",0,0,0,1,0,0,[]]],\"levels\":[],\"version\":1}",
    "{\"entries\":[[\"cover\",0,0,0,1,0,0,[[\"m\",0]]]],\"levels\":[],\"version\":1}",
    "{\"entries\":[[\"cover\",0,0,0,1,0,[]]],\"levels\":[],\"version\":1}",
    "{\"entries\":[[\"cover\",0,0,0,1,0,\"0\",[]]],\"levels\":[],\"version\":1}",
    "{\"entries\":[[\"cover\",0,0,0,1,-1,0,[]]],\"levels\":[],\"version\":1}",
    "{\"entries\":[[\"apart\",0,0,0,1,null]],\"levels\":[],\"version\":1}",
    "{\"entries\":[[\"apart\",\"0\",0,0,1,[]]],\"levels\":[],\"version\":1}",
    "{\"entries\":[[\"apart\",0,0,0,-1,[]]],\"levels\":[],\"version\":1}",
    "{\"entries\":[[\"apart\",0,0,0,1,[7]]],\"levels\":[],\"version\":1}",
    "{\"entries\":[[\"apart\",0,0,0,1,[[]]]],\"levels\":[],\"version\":1}",
    "{\"entries\":[[\"apart\",0,0,0,1,[[\"n\"]]]],\"levels\":[],\"version\":1}",
    "{\"entries\":[[\"apart\",0,0,0,1,[[\"n\",2,3]]]],\"levels\":[],\"version\":1}",
    "{\"entries\":[[\"apart\",0,0,0,1,[[\"x\",2]]]],\"levels\":[],\"version\":1}",
    "{\"entries\":[[\"apart\",0,0,0,1,[[\"M\",2]]]],\"levels\":[],\"version\":1}",
    "{\"entries\":[[\"apart\",0,0,0,1,[[\"mm\",2]]]],\"levels\":[],\"version\":1}",
    "{\"entries\":[[\"apart\",0,0,0,1,[[2,\"m\"]]]],\"levels\":[],\"version\":1}",
    "{\"entries\":[[\"apart\",0,0,0,1,[[\"n\",\"2\"]]]],\"levels\":[],\"version\":1}",
    "{\"entries\":[[\"apart\",0,0,0,1,[[\"m\",-1]]]],\"levels\":[],\"version\":1}",
];

/// Numbers past their ranges, and ones that are no whole numbers.
const NUMBERS: [&str; 24] = [
    "{\"bodies\":[4294967296],\"entries\":[],\"levels\":[3],\"version\":2}",
    "{\"bodies\":[-1],\"entries\":[],\"levels\":[3],\"version\":2}",
    "{\"bodies\":[1.0],\"entries\":[],\"levels\":[3],\"version\":2}",
    "{\"bodies\":[\"1\"],\"entries\":[],\"levels\":[3],\"version\":2}",
    "{\"entries\":[],\"levels\":[4294967296],\"version\":1}",
    "{\"entries\":[],\"levels\":[-3],\"version\":1}",
    "{\"entries\":[],\"levels\":[3.0],\"version\":1}",
    "{\"entries\":[],\"levels\":[-0],\"version\":1}",
    "{\"entries\":[],\"levels\":[\"3\"],\"version\":1}",
    "{\"entries\":[],\"levels\":[18446744073709551616],\"version\":1}",
    "{\"entries\":[[\"apart\",4294967296,0,0,1,[]]],\"levels\":[],\"version\":1}",
    "{\"entries\":[[\"apart\",0,4294967296,0,1,[]]],\"levels\":[],\"version\":1}",
    "{\"entries\":[[\"apart\",0,0,4294967296,1,[]]],\"levels\":[],\"version\":1}",
    "{\"entries\":[[\"apart\",0,0,0,4294967296,[]]],\"levels\":[],\"version\":1}",
    "{\"entries\":[[\"cover\",0,0,0,1,4294967296,0,[]]],\"levels\":[],\"version\":1}",
    "{\"entries\":[[\"cover\",0,0,0,1,0,4294967296,[]]],\"levels\":[],\"version\":1}",
    "{\"entries\":[[\"apart\",0,0,0,1,[[\"m\",4294967296]]]],\"levels\":[],\"version\":1}",
    "{\"entries\":[[\"apart\",0,0,0,1,[[\"u\",4294967296]]]],\"levels\":[],\"version\":1}",
    "{\"entries\":[[\"apart\",0,0,0,1,[[\"t\",4294967296]]]],\"levels\":[],\"version\":1}",
    "{\"entries\":[[\"apart\",0,0,0,1,[[\"v\",4294967296]]]],\"levels\":[],\"version\":1}",
    "{\"entries\":[[\"apart\",0,0,0,1,[[\"n\",9223372036854775808]]]],\"levels\":[],\"version\":1}",
    "{\"entries\":[[\"apart\",0,0,0,1,[[\"n\",-9223372036854775809]]]],\
    \"levels\":[],\"version\":1}",
    "{\"entries\":[[\"apart\",0,0,0,1,[[\"n\",1.0]]]],\"levels\":[],\"version\":1}",
    "{\"entries\":[[\"apart\",0,0,0,1,[[\"n\",-0]]]],\"levels\":[],\"version\":1}",
];

/// Versions that are neither 1 nor 2, whatever stands beside them.
const VERSIONS: [&str; 9] = [
    "{\"entries\":[],\"levels\":[],\"version\":9}",
    "{\"entries\":[],\"levels\":[],\"version\":0}",
    "{\"entries\":[],\"levels\":[],\"version\":-1}",
    "{\"entries\":[],\"levels\":[],\"version\":18446744073709551615}",
    "{\"entries\":[],\"levels\":[],\"version\":-9223372036854775808}",
    "{\"version\":9}",
    "{\"more\":1,\"levels\":7,\"version\":3}",
    "{\"bodies\":[],\"entries\":[],\"levels\":[],\"version\":3}",
    "{\"entries\":[[\"cover\",0,0,0,1,1,1,[[[\"m\",0],[\"t\",0]],[[\"t\",0],[\"m\",0]]]],\
    [\"cover\",0,0,0,3,1,3,[[[\"m\",0],[\"t\",1]],[[\"t\",1],[\"m\",0]]]],\
    [\"cover\",0,2,0,1,3,1,[[[\"m\",1],[\"t\",0]],[[\"t\",0],[\"m\",1]]]],\
    [\"cover\",0,2,0,3,3,3,[[[\"m\",1],[\"t\",1]],[[\"t\",1],[\"m\",1]]]]],\
    \"levels\":[1],\"version\":9}",
];

/// Whether this is written of what was read.
fn is_written_of(alloc: Global, written: &str, certificate: &Certificate) -> bool {
    match to_json(alloc, certificate) {
        Ok(text) => text.as_str() == written,
        Err(_) => false,
    }
}

/// Whether a text is read, and this is written of it again.
fn is_written_as(alloc: Global, text: &str, written: &str) -> bool {
    match from_json(alloc, text.as_bytes()) {
        Ok(certificate) => {
            let is_written = is_written_of(alloc, written, &certificate);
            drop(certificate);
            is_written
        }
        Err(_) => false,
    }
}

#[test]
fn certificates_are_written_as_they_were_read(rt: HostRuntime) {
    for &(text, written) in WRITTEN.iter() {
        assert!(rt; is_written_as(rt.alloc(), text, written), "{text}");
    }
}

fn push_others(text: &mut String, count: usize) -> Result<(), AllocError> {
    for number in 1..count {
        write!(text, ",[\"apart\",0,0,1,{number},[]]")?;
    }
    Ok(())
}

/// A text of so many entries, which have one reason.
fn long_text(alloc: Global, count: usize) -> Result<String, AllocError> {
    let mut text = String::from_str(alloc, "{\"entries\":[[\"apart\",0,0,1,0,[]]")?;
    push_others(&mut text, count)?;
    text.push_str("],\"levels\":[0,0],\"version\":1}")?;
    Ok(text)
}

#[test]
fn a_text_of_several_pieces_is_written_as_it_was_read(rt: HostRuntime) {
    let text = long_text(rt.alloc(), 10_000).expect(&rt, "memory");
    assert!(rt; text.len() > 3 * 65_536);
    assert!(rt; is_written_as(rt.alloc(), text.as_str(), text.as_str()));
}

/// The text of a certificate, as several threads write it.
fn written_by_threads(
    rt: &(impl Threads + Sync),
    alloc: Global,
    certificate: &Certificate,
) -> Result<String, AllocError> {
    let mut pieces = CertificateText::for_threads(alloc, certificate)?;
    let mut text = String::from_str(alloc, pieces.piece())?;
    while pieces.has_more() {
        pieces.advance_par(rt);
        text.push_str(pieces.piece())?;
    }
    Ok(text)
}

/// Whether a text is read, and threads write it again.
fn is_written_by_threads(rt: &(impl Threads + Sync), alloc: Global, text: &str) -> bool {
    let Ok(certificate) = from_json(alloc, text.as_bytes()) else {
        return false;
    };
    let is_written = match written_by_threads(rt, alloc, &certificate) {
        Ok(written) => written.as_str() == text,
        Err(_) => false,
    };
    drop(certificate);
    is_written
}

#[test]
fn threads_write_a_long_text_as_it_was_read(rt: HostRuntime) {
    let text = long_text(rt.alloc(), 40_000).expect(&rt, "memory");
    assert!(rt; is_written_by_threads(&rt, rt.alloc(), text.as_str()));
}

#[test]
fn threads_write_a_short_text_as_it_was_read(rt: HostRuntime) {
    assert!(rt; is_written_by_threads(&rt, rt.alloc(), KEPT_PAYS));
}

/// How many reasons are kept of a certificate that was read.
fn reasons_read(alloc: Global, text: &str) -> Option<usize> {
    match from_json(alloc, text.as_bytes()) {
        Ok(certificate) => {
            let count = reason_count(&certificate);
            drop(certificate);
            Some(count)
        }
        Err(_) => None,
    }
}

#[test]
fn a_reason_that_was_read_is_shared(rt: HostRuntime) {
    let text = long_text(rt.alloc(), 1_000).expect(&rt, "memory");
    // For shorter texts no reason is remembered.
    assert!(rt; text.len() > 16_384);
    assert!(rt; reasons_read(rt.alloc(), text.as_str()) == Some(1));
}

fn chain(rt: &impl Abort, alloc: Global, nodes: [Node; 2]) -> Chain {
    let nodes = Vec::from_array(alloc, nodes).expect(rt, "memory");
    Chain::from_vec(nodes).expect(rt, "numbers that a text can say")
}

/// The chains of a cover, from a node of mine to one of theirs and back.
fn chains(rt: &impl Abort, alloc: Global, mine: Node, theirs: Node) -> Sequence<Chain> {
    let there = chain(rt, alloc, [mine, theirs]);
    let back = chain(rt, alloc, [theirs, mine]);
    Sequence::from_vec(Vec::from_array(alloc, [there, back]).expect(rt, "memory"))
}

/// The only entry of the certificate of the report set.
fn report_entries(rt: &impl Abort, alloc: Global) -> Entries {
    let question = EntryQuestion {
        x: 2,
        a: 2,
        y: 0,
        b: 2,
    };
    let reason = Reason::Cover {
        mine: 0,
        theirs: 0,
        chains: chains(rt, alloc, Node::Mine(0), Node::Theirs(0)),
    };
    let mut entries = Entries::new(alloc);
    entries.push(question, reason).expect(rt, "memory");
    entries
}

fn numbers(rt: &impl Abort, alloc: Global, given: [u32; 3]) -> Sequence<u32> {
    Sequence::from_vec(Vec::from_array(alloc, given).expect(rt, "memory"))
}

/// The certificate of the report set, with these numbers of accesses that stand in bodies.
fn report(rt: &impl Abort, alloc: Global, bodies: [u32; 3]) -> Certificate {
    Certificate {
        entries: report_entries(rt, alloc),
        levels: numbers(rt, alloc, [3, 3, 3]),
        bodies: numbers(rt, alloc, bodies),
    }
}

/// Whether this is written of it.
fn is_report_written(rt: &impl Abort, alloc: Global, bodies: [u32; 3], written: &str) -> bool {
    let certificate = report(rt, alloc, bodies);
    let is_written = is_written_of(alloc, written, &certificate);
    drop(certificate);
    is_written
}

/// What is written of the report set's certificate if its last program had six such accesses.
const REPORT_WITH_BODIES: &str =
    "{\"bodies\":[0,0,6],\"entries\":[[\"cover\",2,2,0,2,0,0,[[[\"m\",0],[\"t\",0]],\
    [[\"t\",0],[\"m\",0]]]]],\"levels\":[3,3,3],\"version\":2}";

#[test]
fn a_certificate_is_built_and_written(rt: HostRuntime) {
    assert!(rt; is_report_written(&rt, rt.alloc(), [0, 0, 0], KEPT_REPORTS));
    assert!(rt; is_report_written(&rt, rt.alloc(), [0, 0, 6], REPORT_WITH_BODIES));
}

/// Two numbers, of which the first is greater.
const FALLING: [Node; 2] = [Node::Number(2), Node::Number(1)];

/// A question that such numbers answer.
const FIRST: EntryQuestion = EntryQuestion {
    x: 0,
    a: 0,
    y: 0,
    b: 1,
};

/// Another one that they answer.
const SECOND: EntryQuestion = EntryQuestion {
    x: 0,
    a: 2,
    y: 3,
    b: 1,
};

/// One that has the second access of the first.
const THIRD: EntryQuestion = EntryQuestion {
    x: 1,
    a: 0,
    y: 0,
    b: 1,
};

/// Whether a reason is that the accesses never meet, by this chain.
fn is_apart_by(reason: &Reason, nodes: &[Node]) -> bool {
    match reason {
        Reason::Apart(chain) => chain.as_slice() == nodes,
        Reason::Cover { .. } => false,
    }
}

#[test]
fn entries_may_share_a_reason(rt: HostRuntime) {
    let reason = Reason::Apart(chain(&rt, rt.alloc(), FALLING));
    let mut entries = Entries::new(rt.alloc());
    assert!(rt; entries.is_empty());
    entries.push(FIRST, reason).expect(&rt, "memory");
    assert!(rt; entries.len() == 1);
    entries.push_like(SECOND, 0).expect(&rt, "memory");
    assert!(rt; entries.len() == 2);
    assert!(rt; entries.question(0) == FIRST && entries.question(1) == SECOND);
    assert!(rt; is_apart_by(entries.reason(0), &FALLING));
    assert!(rt; is_apart_by(entries.reason(1), &FALLING));
    drop(entries);
}

/// Three questions with the numbers of two reasons.
const SHARING: [Told; 3] = [
    Told {
        question: FIRST,
        reason: 1,
    },
    Told {
        question: SECOND,
        reason: 0,
    },
    Told {
        question: THIRD,
        reason: 1,
    },
];

/// What is written of these entries alone.
const SHARED: &str =
    "{\"entries\":[[\"cover\",0,0,0,1,4,7,[[[\"m\",0],[\"t\",0]],[[\"t\",0],[\"m\",0]]]],\
    [\"apart\",0,2,3,1,[[\"n\",2],[\"n\",1]]],\
    [\"cover\",1,0,0,1,4,7,[[[\"m\",0],[\"t\",0]],[[\"t\",0],[\"m\",0]]]]],\
    \"levels\":[],\"version\":1}";

/// Entries of which the first and the last share a reason.
fn sharing_entries(rt: &impl Abort, alloc: Global) -> Result<Entries, AllocError> {
    let told = Vec::from_array(alloc, SHARING)?;
    let apart = Reason::Apart(chain(rt, alloc, FALLING));
    let cover = Reason::Cover {
        mine: 4,
        theirs: 7,
        chains: chains(rt, alloc, Node::Mine(0), Node::Theirs(0)),
    };
    let reasons = Vec::from_array(alloc, [apart, cover])?;
    Ok(Entries::of(told, reasons))
}

/// Whether these are the same questions, with the same numbers of reasons.
fn are_same(told: &[Told], other: &[Told]) -> bool {
    let mut pairs = told.iter().zip(other);
    told.len() == other.len()
        && pairs.all(|(t, o)| t.question == o.question && t.reason == o.reason)
}

/// The certificate of entries alone.
fn certificate_of(alloc: Global, entries: Entries) -> Certificate {
    Certificate {
        entries,
        levels: Sequence::from_vec(Vec::new(alloc)),
        bodies: Sequence::from_vec(Vec::new(alloc)),
    }
}

fn check_parts(rt: &impl Abort, entries: &Entries) {
    let (told, reasons) = entries.parts();
    assert!(rt; are_same(told, &SHARING));
    let [apart, cover] = reasons else {
        panic!(rt; "other reasons")
    };
    assert!(rt; is_apart_by(apart, &FALLING));
    assert!(rt; !is_apart_by(cover, &FALLING));
}

#[test]
fn entries_are_made_of_parts(rt: HostRuntime) {
    let entries = sharing_entries(&rt, rt.alloc()).expect(&rt, "memory");
    check_parts(&rt, &entries);
    let certificate = certificate_of(rt.alloc(), entries);
    assert!(rt; is_written_of(rt.alloc(), SHARED, &certificate));
    drop(certificate);
}

fn push_pair(rt: &impl Abort, alloc: Global, entries: &mut Entries) {
    let first = Reason::Apart(chain(rt, alloc, FALLING));
    entries.push(FIRST, first).expect(rt, "memory");
    let second = Reason::Apart(chain(rt, alloc, FALLING));
    entries.push(SECOND, second).expect(rt, "memory");
}

/// Many times a pair of entries.
fn pairs_of_entries(rt: &impl Abort, alloc: Global, count: usize) -> Entries {
    let mut entries = Entries::new(alloc);
    for _turn in 0..count {
        push_pair(rt, alloc, &mut entries);
    }
    entries
}

/// What is written of such a pair.
const PAIR: &str =
    "[\"apart\",0,0,0,1,[[\"n\",2],[\"n\",1]]],[\"apart\",0,2,3,1,[[\"n\",2],[\"n\",1]]]";

/// What is written of many.
fn push_pairs(text: &mut String, count: usize) -> Result<(), AllocError> {
    text.push_str("{\"entries\":[")?;
    for turn in 0..count {
        if turn > 0 {
            text.push_str(",")?;
        }
        text.push_str(PAIR)?;
    }
    text.push_str("],\"levels\":[],\"version\":1}")
}

#[test]
fn many_entries_are_written(rt: HostRuntime) {
    let certificate = certificate_of(rt.alloc(), pairs_of_entries(&rt, rt.alloc(), 600));
    let mut written = String::new(rt.alloc());
    push_pairs(&mut written, 600).expect(&rt, "memory");
    assert!(rt; is_written_of(rt.alloc(), written.as_str(), &certificate));
    drop(certificate);
}

/// Nodes with a number that no text can say.
const PAST: [Node; 4] = [
    Node::Mine(4294967296),
    Node::MineUnknown(4294967296),
    Node::Theirs(4294967296),
    Node::TheirsUnknown(4294967296),
];

#[test]
fn a_chain_holds_numbers_that_a_text_can_say(rt: HostRuntime) {
    let nodes = [Node::TheirsUnknown(4294967295), Node::Number(i64::MIN)];
    let greatest = chain(&rt, rt.alloc(), nodes);
    assert!(rt; greatest.as_slice() == &nodes[..]);
    drop(greatest);
    for node in &PAST {
        let past = Vec::from_array(rt.alloc(), [Node::Mine(0), *node]).expect(&rt, "memory");
        assert!(rt; Chain::from_vec(past).is_none(), "{node:?}");
    }
}

#[test]
fn a_chain_takes_nodes_in_a_row(rt: HostRuntime) {
    let [first, second] = FALLING;
    let chain = Chain::from_nodes(Nodes::of_two(first, second)).expect(&rt, "small numbers");
    assert!(rt; chain.as_slice() == &FALLING[..]);
    drop(chain);
    for node in &PAST {
        assert!(rt;
            Chain::from_nodes(Nodes::of_one(*node)).is_none(),
            "{node:?}"
        );
    }
}

fn fault_of(alloc: Global, bytes: &[u8]) -> Option<JsonFault> {
    from_json(alloc, bytes).err()
}

/// Asserts that each of some texts has this fault.
fn all_have(rt: &impl Abort, alloc: Global, texts: &[&str], fault: JsonFault) {
    for text in texts {
        let found = fault_of(alloc, text.as_bytes());
        assert!(rt; found == Some(fault), "{text}");
    }
}

/// Asserts that no text is JSON that lacks bytes at the end of this one.
fn no_front_is_json(rt: &impl Abort, alloc: Global, text: &str) {
    let bytes = text.as_bytes();
    for length in 0..bytes.len() {
        let found = fault_of(alloc, &bytes[..length]);
        assert!(rt; found == Some(JsonFault::NotJson), "{length} of {text}");
    }
}

#[test]
fn a_text_that_is_cut_is_no_json(rt: HostRuntime) {
    for text in [EMPTY, KEPT_REPORTS, TRANSFER_CERTIFICATE, KEPT_PAYS] {
        no_front_is_json(&rt, rt.alloc(), text);
    }
}

#[test]
fn another_text_is_no_json(rt: HostRuntime) {
    all_have(&rt, rt.alloc(), &NO_JSON, JsonFault::NotJson);
}

#[test]
fn bytes_and_depth_are_those_of_json(rt: HostRuntime) {
    let bytes = b"{\"entries\":[],\"levels\":[],\"version\":1,\"\xff\":1}";
    assert!(rt; fault_of(rt.alloc(), bytes) == Some(JsonFault::NotJson));
    let deep = [b'['; 128];
    let mut nested = [b']'; 256];
    nested[..128].copy_from_slice(&deep);
    assert!(rt; fault_of(rt.alloc(), &nested) == Some(JsonFault::NotJson));
    let less = &nested[1..255];
    assert!(rt; fault_of(rt.alloc(), less) == Some(JsonFault::WrongShape));
}

#[test]
fn another_form_is_refused(rt: HostRuntime) {
    all_have(&rt, rt.alloc(), &MEMBERS, JsonFault::WrongShape);
    all_have(&rt, rt.alloc(), &ENTRIES, JsonFault::WrongShape);
    all_have(&rt, rt.alloc(), &NUMBERS, JsonFault::WrongShape);
}

#[test]
fn another_version_is_told_first(rt: HostRuntime) {
    all_have(&rt, rt.alloc(), &VERSIONS, JsonFault::WrongVersion);
}
