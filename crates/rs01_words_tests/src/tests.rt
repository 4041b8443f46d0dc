//! The grammar against worked command lines.
use rs01_words::{
    Command, WordFault, drive_names, is_digit, name_of, read_words, verb_of, verbs, word_if_any,
};
use std::alloc::{AllocError, Global};
use std::test::Fail;

// The words of a line, parted by spaces.
fn words_of(alloc: Global, line: &str) -> Result<Vec<String>, AllocError> {
    let mut words = Vec::new(alloc);
    for word in line.split_whitespace() {
        words.push(String::from_str(alloc, word)?)?;
    }
    Ok(words)
}

#[test]
fn refusals(rt: HostRuntime) -> Result<(), Fail> {
    let sixteen = "--drive a --drive b --drive c --drive d --drive e --drive f --drive g --drive h \
                   --drive i --drive j --drive k --drive l --drive m --drive n --drive o --drive p";
    let seventeen = format!(in rt.alloc(); "scan {sixteen} --drive q")?;
    for (line, fault, place) in [
        ("", WordFault::NoCommand, 0),
        ("burn", WordFault::UnknownCommand, 0),
        ("creat a b", WordFault::UnknownCommand, 0),
        ("--workers", WordFault::UnknownCommand, 0),
        ("verify a b --cut", WordFault::UnknownOption, 3),
        ("demo 1 1 8 0 --drive d", WordFault::UnknownOption, 5),
        ("fix a b c", WordFault::UnknownOption, 3),
        ("create a b --", WordFault::UnknownOption, 3),
        ("create a b --parity=8", WordFault::UnknownOption, 3),
        ("create a b --parit 8", WordFault::UnknownOption, 3),
        ("create a --cut --parity x", WordFault::UnknownOption, 2),
        ("create a b --workers 2 --workers 2", WordFault::Repeated, 5),
        ("create a b --workers 2 --workers", WordFault::Repeated, 5),
        ("fix a b --cut --cut", WordFault::Repeated, 4),
        (seventeen.as_str(), WordFault::Repeated, 33),
        ("create a b --parity", WordFault::NoValue, 3),
        ("scan --drive", WordFault::NoValue, 1),
        ("create a b --parity x", WordFault::BadNumber, 4),
        ("create a b --parity -8", WordFault::BadNumber, 4),
        ("create a b --parity --workers", WordFault::BadNumber, 4),
        ("create a b --workers normal", WordFault::BadNumber, 4),
        ("demo 1 x 32 0", WordFault::BadNumber, 2),
        ("create a b --parity 7", WordFault::OutOfRange, 4),
        ("create a b --parity 101", WordFault::OutOfRange, 4),
        ("create a b --workers 0", WordFault::OutOfRange, 4),
        ("create a b --workers 33", WordFault::OutOfRange, 4),
        (
            "create a b --parity 1111111111111111111111111111111111111111",
            WordFault::OutOfRange,
            4,
        ),
        ("read a --jump 1048577", WordFault::OutOfRange, 3),
        ("read a --tries 17", WordFault::OutOfRange, 3),
        ("demo 18446744073709551616 1 32 0", WordFault::OutOfRange, 1),
        ("create a", WordFault::Missing, 2),
        ("read", WordFault::Missing, 1),
        ("demo 1 2 32", WordFault::Missing, 4),
        ("create a --burn", WordFault::UnknownOption, 2),
        ("demo 1 4 32 5", WordFault::OutOfRange, 4),
        ("create a a", WordFault::SameName, 2),
        ("read a --drive b a", WordFault::SameName, 4),
        (
            "read a --drive b --drive b --drive a",
            WordFault::SameName,
            7,
        ),
        ("scan --drive a a", WordFault::SameName, 3),
    ] {
        match read_words(words_of(rt.alloc(), line)?.as_slice()) {
            Ok(_) => assert!(rt; false, "{line}"),
            Err(refused) => {
                assert_eq!(rt; refused.fault, fault, "{line}");
                assert_eq!(rt; refused.place, place, "{line}");
            }
        }
    }
    Ok(())
}

#[test]
fn commands(rt: HostRuntime) -> Result<(), Fail> {
    for (line, wanted) in [
        ("create a b", (1, 2, 32, 2)),
        ("create --parity normal a b", (3, 4, 32, 2)),
        ("create a --parity high b --workers 32", (1, 4, 64, 32)),
        ("create a b --parity 0032 --workers 1", (1, 2, 32, 1)),
        ("create -a --parity 100 -b", (1, 4, 100, 2)),
        ("create a b --parity 8", (1, 2, 8, 2)),
    ] {
        match read_words(words_of(rt.alloc(), line)?.as_slice()) {
            Ok(
                Command::Create {
                    image,
                    ecc,
                    parity,
                    workers,
                },
            ) => assert_eq!(rt; (image, ecc, parity, workers), wanted, "{line}"),
            _ => assert!(rt; false, "{line}"),
        }
    }
    match read_words(words_of(rt.alloc(), "fix --cut a b")?.as_slice()) {
        Ok(
            Command::Fix {
                image,
                ecc,
                workers,
                cut,
            },
        ) => assert_eq!(rt; (image, ecc, workers, cut), (2, 3, 2, true)),
        _ => assert!(rt; false),
    }
    match read_words(words_of(
        rt.alloc(),
        "read a --drive b --drive --jump --adaptive",
    )?.as_slice())
    {
        Ok(
            Command::Read {
                image,
                ecc,
                drives,
                adaptive,
                jump,
                tries,
                workers,
            },
        ) => {
            assert_eq!(rt;
                (image, ecc, adaptive, jump, tries, workers),
                (1, None, true, 1, 1, 2)
            );
            assert_eq!(rt; (drives.len(), drives.is_empty()), (2, false));
            assert_eq!(rt;
                (drives.get(0), drives.get(1), drives.get(2)),
                (Some(3), Some(5), None)
            );
        }
        _ => assert!(rt; false),
    }
    match read_words(words_of(
        rt.alloc(),
        "demo 18446744073709551615 65536 high 65536",
    )?.as_slice())
    {
        Ok(
            Command::Demo {
                number,
                sectors,
                parity,
                lost,
            },
        ) => assert_eq!(rt;
            (number, sectors, parity, lost),
            (u64::MAX, 65_536, 64, 65_536)
        ),
        _ => assert!(rt; false),
    }
    Ok(())
}

#[test]
fn drives(rt: HostRuntime) -> Result<(), Fail> {
    let sixteen = "scan --drive a --drive b --drive c --drive d --drive e --drive f --drive g \
                   --drive h --drive i --drive j --drive k --drive l --drive m --drive n \
                   --drive o --drive a";
    for (line, count, first) in [
        ("read disc.iso --drive a --drive b", 2, "a"),
        (sixteen, 16, "a"),
        ("scan x.ecc --drive --tries", 1, "--tries"),
        ("scan", 0, ""),
        ("create a b", 0, ""),
        ("scan --drive a --drive", 0, ""),
    ] {
        let names = drive_names(rt.alloc(), words_of(rt.alloc(), line)?.as_slice())?;
        assert_eq!(rt; names.len(), count, "{line}");
        match names.first() {
            Some(name) => assert_eq!(rt; name.as_str(), first, "{line}"),
            None => assert_eq!(rt; count, 0, "{line}"),
        }
    }
    Ok(())
}

#[test]
fn names(rt: HostRuntime) {
    assert_eq!(rt; verbs().len(), 6);
    for verb in verbs() {
        assert_eq!(rt; verb_of(name_of(*verb)), Some(*verb));
    }
}

#[test]
fn places_of_words(rt: HostRuntime) -> Result<(), Fail> {
    let words = words_of(rt.alloc(), "verify disc.iso disc.ecc")?;
    for (place, wanted) in [
        (0, Some("verify")),
        (2, Some("disc.ecc")),
        (3, None),
        (usize::MAX, None),
    ] {
        assert_eq!(rt; word_if_any(&words, place), wanted);
    }
    assert_eq!(rt; word_if_any(&[], 0), None);
    Ok(())
}

#[test]
fn digits(rt: HostRuntime) {
    for (byte, wanted) in [
        (b'0', true),
        (b'5', true),
        (b'9', true),
        (b'/', false),
        (b':', false),
        (0, false),
    ] {
        assert_eq!(rt; is_digit(byte), wanted);
    }
}
