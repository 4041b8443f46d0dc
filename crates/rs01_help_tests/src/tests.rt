//! What a person is told, line by line.
use rs01_fakes::MemorySink;
use rs01_help::*;
use rs01_outside::Sink;
use rs01_words::{
    Kind, OptionWord, Verb, name_of, options_of, plain_text, plain_words_of, rule_of, text_of,
    verb_of, verbs,
};
use std::alloc::{AllocError, Global};
use std::process::Abort;
use std::test::Fail;

// The words of a line, parted by spaces.
fn words_of(alloc: Global, line: &str) -> Result<Vec<String>, AllocError> {
    let mut words = Vec::new(alloc);
    for word in line.split_whitespace() {
        words.push(String::from_str(alloc, word)?)?;
    }
    Ok(words)
}

fn text_in(out: &MemorySink) -> &str {
    match str::from_utf8(out.bytes()) {
        Ok(text) => text,
        Err(_) => "",
    }
}

#[test]
fn topics(rt: HostRuntime) -> Result<(), Fail> {
    for (line, topic) in [
        ("", Some(Topic::All)),
        ("--help", Some(Topic::All)),
        ("-h", Some(Topic::All)),
        ("help burn", Some(Topic::All)),
        ("help fix", Some(Topic::Page(Verb::Fix))),
        ("--help scan more", Some(Topic::Page(Verb::Scan))),
        ("create --help", Some(Topic::Page(Verb::Create))),
        ("verify --help disc.ecc", Some(Topic::Page(Verb::Verify))),
        ("--version", Some(Topic::Version)),
        ("-V", Some(Topic::Version)),
        ("create", None),
        ("verify -h disc.ecc", Some(Topic::Page(Verb::Verify))),
        ("verify -h", Some(Topic::Page(Verb::Verify))),
        ("verify -v", None),
        ("verify disc.iso --help", None),
        ("burn --help", None),
        ("fix disc.iso disc.ecc", None),
    ] {
        let words = words_of(rt.alloc(), line)?;
        assert_eq!(rt; topic_of(&words), topic, "{line}");
    }
    Ok(())
}

#[test]
fn usage_lines(rt: HostRuntime) -> Result<(), Fail> {
    for (verb, line) in [
        (
            Verb::Create,
            "create IMAGE ECC [--parity N] [--workers W]\n",
        ),
        (Verb::Fix, "fix IMAGE ECC [--workers W] [--cut]\n"),
        (Verb::Verify, "verify IMAGE ECC\n"),
        (Verb::Scan, "scan [ECC] [--drive D] ..\n"),
        (
            Verb::Read,
            "read IMAGE [ECC] [--drive D] .. [--adaptive] [--jump J] [--tries T] [--workers W]\n",
        ),
        (Verb::Demo, "demo NUMBER SECTORS PARITY LOST\n"),
    ] {
        let mut out = MemorySink::new(rt.alloc());
        assert!(rt; put_usage(rt.alloc(), verb, &mut out).is_ok());
        assert_eq!(rt;
            text_in(&out).strip_prefix("usage: dvdisaster_rs01 "),
            Some(line)
        );
    }
    Ok(())
}

#[test]
fn one_page(rt: HostRuntime) -> Result<(), Fail> {
    let mut out = MemorySink::new(rt.alloc());
    assert!(rt; put_page(rt.alloc(), Verb::Create, &mut out).is_ok());
    assert_eq!(rt;
        text_in(&out),
        "\
usage: dvdisaster_rs01 create IMAGE ECC [--parity N] [--workers W]
    makes ECC from IMAGE, and replaces what stands under that name
    IMAGE: the image's file, or a device
    ECC: its error correction file
    --parity N: parity bytes in a codeword of 255, 8 to 100, normal (32), high (64); 32 if it isn't given
    --workers W: threads that work, 1 to 32; 2 if it isn't given
"
    );
    Ok(())
}

// Whether the help has a line of a number's range, and of its default where it has one.
fn tells_numbers(alloc: Global, help: &str, name: &str, kind: Kind) -> Result<bool, AllocError> {
    let (Kind::Number { low, high } | Kind::Parity { low, high }) = kind else {
        return Ok(true);
    };
    let range = format!(in alloc; ", {low} to {high}")?;
    Ok(help.lines().any(|line| line.contains(name) && line.contains(range.as_str())))
}

#[test]
fn help_names_each_row(rt: HostRuntime) -> Result<(), Fail> {
    let mut out = MemorySink::new(rt.alloc());
    assert!(rt; put_help(rt.alloc(), &mut out).is_ok());
    let help = text_in(&out);
    for verb in verbs() {
        assert!(rt; help.contains(name_of(*verb)));
        for word in plain_words_of(*verb) {
            let name = plain_text(word.name);
            assert!(rt; tells_numbers(rt.alloc(), help, name, word.kind)?, "{name}");
        }
        for option in options_of(*verb) {
            let (name, rule) = (text_of(*option), rule_of(*option));
            assert!(rt; help.contains(name), "{name}");
            if let Some(kind) = rule.value {
                assert!(rt; tells_numbers(rt.alloc(), help, name, kind)?, "{name}");
            }
        }
    }
    Ok(())
}

#[test]
fn fault_lines(rt: HostRuntime) -> Result<(), Fail> {
    for (line, told) in [
        ("verify disc.iso disc.ecc", ""),
        (
            "verify disc.iso disc.ecc --cut",
            "word 3 is --cut\nusage: dvdisaster_rs01 verify IMAGE ECC\n",
        ),
        (
            "fix disc.iso",
            "word 2 isn't there\nusage: dvdisaster_rs01 fix IMAGE ECC [--workers W] [--cut]\n",
        ),
        (
            "burn disc.iso",
            "word 0 is burn\ncommands: create fix verify scan read demo; dvdisaster_rs01 --help tells them\n",
        ),
        (
            "scan --parity=64",
            "word 1 is --parity=64\nusage: dvdisaster_rs01 scan [ECC] [--drive D] ..\n",
        ),
    ] {
        let words = words_of(rt.alloc(), line)?;
        let mut out = MemorySink::new(rt.alloc());
        assert!(rt; put_fault_lines(rt.alloc(), &words, &mut out).is_ok());
        assert_eq!(rt; text_in(&out), told, "{line}");
    }
    Ok(())
}

// For each hint, in the order of the table, what a run puts that it fits.
const PUT: [&str; 38] = [
    "created disc.ecc\nsectors 1, layers 1, parity 32\n",
    "fixed disc.iso\nrestored 2: 5-6\nlost 0: none\nstrange layers 0\nsurplus bytes 0\n",
    "read disc.iso\nsectors 10\nlost 0: none\nstrange layers 0\nsurplus bytes 0\n",
    "checked disc.iso\nfullest layer 0: 0 of 32\nlayers beyond 0\nsurplus bytes 4096\nfingerprint matches\n",
    "checked disc.iso\nfullest layer 0: 200 of 32\nlayers beyond 2\nsurplus bytes 0\nfingerprint differs\n",
    "checked disc.iso\nfullest layer 1: 1 of 32\nlayers beyond 0\nsurplus bytes 0\nfingerprint matches\n",
    "checked disc.iso\nfullest layer 0: 0 of 32\nlayers beyond 0\nsurplus bytes 0\nfingerprint matches\nimage md5 differs\n",
    "checked disc.iso\nfullest layer 3: 40 of 32\nlayers beyond 1\nsurplus bytes 0\nfingerprint matches\n",
    "fixed disc.iso\nrestored 0: none\nlost 1: 3\nstrange layers 1\nlayer 0: codeword 5 disagrees\n",
    "fixed disc.iso\nrestored 0: none\nlost 33: 0-32\nstrange layers 0\nsurplus bytes 0\n",
    "scanned 10 sectors\nunreadable 1: 3\naltered 0: none\nfullest layer 0: 1 of 32\nlayers beyond 0\n",
    "scanned 10 sectors\nunreadable 1: 3\naltered 0: none\n",
    "read disc.iso\nsectors 10\nrestored 2: 1-2\nlost 4: 3-6\nstrange layers 0\nsurplus bytes 0\n",
    "read disc.iso\nsectors 10\nrestored 0: none\nlost 4: 3-6\nstrange layers 0\nsurplus bytes 0\n",
    "demo 1 300 32 66\nrestored 0\nlost 66\nimage isn't the original\n",
    "rs01: word 2: the same name twice\n",
    "rs01: word 3: not known here\n",
    "rs01: no image\n",
    "rs01: no image\n",
    "rs01: no image\n",
    "rs01: no error correction file\n",
    "rs01: the image is empty\n",
    "rs01: the image has 16777216 sectors, at most 16777215 are possible\n",
    "rs01: sector 7 is marked as missing\n",
    "rs01: header: cookie\n",
    "rs01: header: method\n",
    "rs01: header: version\n",
    "rs01: header: sectors\n",
    "rs01: the file has 69635 bytes, 69636 are expected\n",
    "rs01: body md5 00000000000000000000000000000000, recorded 00000000000000000000000000000001\n",
    "rs01: reading a file failed\n",
    "rs01: writing a file failed\n",
    "rs01: writing a file failed\n",
    "rs01: no drive\n",
    "rs01: drive 0: size failed\n",
    "rs01: drives differ: 10 and 11 sectors\n",
    "",
    "rs01: memory ran out\n",
];

#[test]
fn each_hint_is_told(rt: HostRuntime) -> Result<(), Fail> {
    for (hint, put) in HINTS.iter().zip(PUT.iter()) {
        let command = if hint.command.is_empty() {
            "verify"
        } else {
            hint.command
        };
        let ran = Ran {
            status: hint.status,
            command,
            heads: put.as_bytes(),
        };
        let mut out = MemorySink::new(rt.alloc());
        assert!(rt; put_hints(rt.alloc(), &HINTS, &ran, &mut out).is_ok());
        let text = hint.text;
        let line = format!(in rt.alloc(); "{text}\n")?;
        assert!(rt; text_in(&out).ends_with(line.as_str()), "{text}");
    }
    Ok(())
}

#[test]
fn counts(rt: HostRuntime) -> Result<(), Fail> {
    let ran = Ran {
        status: 1,
        command: "fix",
        heads: b"fixed disc.iso\nrestored 0: none\nlost 33: 0-32\nstrange layers 0\n",
    };
    let mut out = MemorySink::new(rt.alloc());
    assert!(rt; put_hints(rt.alloc(), &HINTS, &ran, &mut out).is_ok());
    assert!(rt; text_in(&out).starts_with("hint: 33 sectors stay lost, "));
    Ok(())
}

const LEGEND: &str = "  . good   # missing or unreadable   x altered   + restored   ? not asked\n";

#[test]
fn pictures(rt: HostRuntime) -> Result<(), Fail> {
    for (report, told) in [
        (
            "checked a\nsectors 600, layers 3, parity 32\nmissing 1: 5\naltered 25: 20-39,590-594\n",
            "#.xx.......................................................x",
        ),
        (
            "checked a\nsectors 600, layers 3, parity 32\nmissing 1: 25\naltered 1: 20\n",
            "..#.........................................................",
        ),
        (
            "checked a\nsectors 600, layers 3, parity 32\nmissing 0: none\naltered 0: none\n",
            "",
        ),
        (
            "scanned 10 sectors\nunreadable 1: 3\naltered 1: 9\n",
            "...#.....x",
        ),
        (
            "read a\nsectors 4\nunreadable 2: 0-1\nrestored 1: 0\nlost 1: 1\n",
            "+#..",
        ),
        (
            "read a\nsectors 8\nunreadable 1: 3\naltered 1: 1\nnot asked 2: 4-5\nlost 4: 1,3-5\n",
            ".x.#??..",
        ),
        (
            "read a\nsectors 3\nunreadable 1: 2\nrestored 1: 2\nlost 0: none\n",
            "..+",
        ),
        ("read a\nsectors 3\nunreadable 0: none\nlost 0: none\n", ""),
        ("fixed a\nrestored 1: 0\nlost 1: 1\n", ""),
        ("rs01: no image\n", ""),
    ] {
        let mut out = MemorySink::new(rt.alloc());
        assert!(rt; put_picture(rt.alloc(), report, &mut out).is_ok());
        if told.is_empty() {
            assert_eq!(rt; text_in(&out), "", "{report}");
        } else {
            let wanted = format!(in rt.alloc(); "image: [{told}]\n{LEGEND}")?;
            assert_eq!(rt; text_in(&out), wanted.as_str(), "{report}");
        }
    }
    Ok(())
}

#[test]
fn verdicts(rt: HostRuntime) -> Result<(), Fail> {
    for (line, told) in [
        ("\nfullest layer 7: 0 of 32\n", ""),
        (
            "\nfullest layer 7: 32 of 32\n",
            "hint: the fullest layer has lost 32 of at most 32: fix can restore every sector\n",
        ),
        (
            "\nfullest layer 7: 33 of 32\n",
            "hint: the fullest layer has lost 33 of at most 32: read more of the disc first, also in another drive\n",
        ),
        ("fullest layer 7: 1 of 32\n", ""),
        ("\nfullest layer\n", ""),
    ] {
        let ran = Ran {
            status: 1,
            command: "verify",
            heads: line.as_bytes(),
        };
        let mut out = MemorySink::new(rt.alloc());
        assert!(rt; put_hints(rt.alloc(), &[], &ran, &mut out).is_ok());
        assert_eq!(rt; text_in(&out), told, "{line}");
    }
    Ok(())
}

#[test]
fn all_is_well(rt: HostRuntime) -> Result<(), Fail> {
    let ran = Ran {
        status: 0,
        command: "verify",
        heads: b"checked disc.iso\nfullest layer 0: 0 of 32\nlayers beyond 0\nsurplus bytes 0\n",
    };
    let mut out = MemorySink::new(rt.alloc());
    assert!(rt; put_hints(rt.alloc(), &HINTS, &ran, &mut out).is_ok());
    assert_eq!(rt; text_in(&out), "");
    Ok(())
}

#[test]
fn heads_of_lines(rt: HostRuntime) -> Result<(), Fail> {
    let mut inner = MemorySink::new(rt.alloc());
    inner.fail_put(2);
    let mut out = Noted::new(inner);
    let long = format!(in rt.alloc();
        "lost 9: {0}{0}{0}{0}\n",
        "1,3,5,7,9,11,13,15,17,19,21,23,25,"
    )?;
    assert!(rt; out.put(b"fixed disc").is_ok());
    assert!(rt; out.put(b".iso\n").is_ok());
    assert!(rt; out.put(long.as_bytes()).is_err());
    assert!(rt; out.put(b"surplus bytes 0\n").is_ok());
    assert_eq!(rt; out.faults(), 1);
    let heads = str::from_utf8(out.heads()).unwrap_or("");
    assert_eq!(rt; heads.lines().count(), 3);
    assert!(rt; heads.starts_with("fixed disc.iso\nlost 9: 1,3,"));
    assert!(rt; heads.ends_with(",15,1\nsurplus bytes 0\n"));
    assert_eq!(rt; heads.lines().map(|line| line.len()).max(), Some(96));
    Ok(())
}

#[test]
fn progress_of_files(rt: HostRuntime) -> Result<(), Fail> {
    for (done, told) in [
        (0, "0 % of 300 MB, 0 MB a second, 0 s left"),
        (150_000_000, "50 % of 300 MB, 75 MB a second, 2 s left"),
        (300_000_000, "100 % of 300 MB, 150 MB a second, 0 s left"),
        (300_000_001, "100 % of 300 MB, 150 MB a second, 0 s left"),
    ] {
        let line = bytes_line(rt.alloc(), done, 300_000_000, 2000)?;
        assert_eq!(rt; line.strip_prefix("\r\x1b[K"), Some(told));
    }
    Ok(())
}

#[test]
fn progress_of_drives(rt: HostRuntime) -> Result<(), Fail> {
    for (done, settled, told) in [
        (
            250,
            0,
            "sector 250 of 1000, asked 252, good 248, failed 4, 50 a second, 15 s left",
        ),
        (
            250,
            3,
            "sector 250 of 1000, asked 252, good 248, failed 4, layers settled 3, 50 a second, 15 s left",
        ),
        (
            1001,
            0,
            "sector 1000 of 1000, asked 252, good 248, failed 4, 50 a second, 0 s left",
        ),
    ] {
        let asks = Asks {
            given: 248,
            failed: 4,
            settled,
        };
        let line = sectors_line(rt.alloc(), done, 1000, asks, 5000)?;
        assert_eq!(rt; line.strip_prefix("\r\x1b[K"), Some(told));
    }
    Ok(())
}
