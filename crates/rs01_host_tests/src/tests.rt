//! Calls on files of the system, each test in a folder of its own.
use rs01_host::{FileDesk, StdSink};
use rs01_outside::Sink;
use script::{all_right, right_anew};
use std::alloc::AllocError;
use std::test::Fail;

mod causes;
mod drives;
mod script;

#[test]
fn files_are_made_written_read_and_cut(rt: HostRuntime) {
    assert!(rt;
        right_anew(
            &rt,
            "whole/disc",
            "fresh done whole
        size done it
        cut done it 3
        size done it
        make done it
        size 0 it
        write done it 2 abcd
        write done it 3 xy
        size 6 it
        read 4 it 0 \0\0ax
        read 3 it 3 xyd-
        read 0 it 6 ----
        read 0 it 9 ----
        cut done it 9
        size 6 it
        cut done it 4
        size 4 it
        write done it 8
        size 8 it
        holds done it \0\0ax\0\0\0\0
        make done it
        size 0 it
        write done whole/new 0 n
        size 1 whole/new
        read_faults 0
        write_faults 0",
        )
    );
}

#[test]
fn folders_and_wrong_paths_are_faults(rt: HostRuntime) {
    assert!(rt;
        right_anew(
            &rt,
            "wrong/folder\nwrong/plain/inner\nwrong/folder/\n.\n/dev/null\n/dev/zero",
            "fresh done wrong
        folder done wrong/folder
        file done wrong/plain p
        size fault it
        read fault it 0 ----
        write fault it 0 x
        make fault it
        cut fault it 0
        read_faults 2
        write_faults 3
        holds done wrong/plain p",
        )
    );
}

// The second name is empty.
#[test]
fn a_name_in_no_folder_is_absent(rt: HostRuntime) {
    assert!(rt;
        right_anew(
            &rt,
            "absent/inner\n\n",
            "size done it
        read 0 it 0 ----
        cut done it 0
        write fault it 0 x
        make fault it
        read_faults 0
        write_faults 2",
        )
    );
}

#[test]
fn another_name_of_a_file_is_not_written(rt: HostRuntime) {
    assert!(rt;
        right_anew(
            &rt,
            "names/./disc\nnames/hard\nnames/soft\nnames/folder/../disc",
            "fresh done names
        folder done names/folder
        file done names/disc image
        hard done names/disc names/hard
        soft done disc names/soft
        size 5 names/disc
        size 5 it
        make fault it
        write fault it 0 x
        cut fault it 1
        make fault names/disc
        read_faults 0
        write_faults 4
        holds done names/disc image",
        )
    );
}

#[test]
fn an_absent_name_is_looked_up_again(rt: HostRuntime) {
    assert!(rt;
        right_anew(
            &rt,
            "again/dangling",
            "fresh done again
        file done again/disc image
        soft done made again/dangling
        size done again/made
        size done it
        write done again/made 0 abc
        write fault it 0 xyz
        write done again/disc 0 xyz
        holds done again/made abc
        holds done again/disc xyzge",
        )
    );
}

#[test]
fn a_file_that_was_moved_is_a_fault(rt: HostRuntime) {
    assert!(rt;
        right_anew(
            &rt,
            "moved/disc",
            "fresh done moved
        file done it image
        write done it 0 I
        rename done it moved/away
        read 4 it 0 Imag
        read fault it 1 ----
        file done it other
        size fault it
        write fault it 4 E
        cut fault it 1
        make fault it
        holds done it other",
        )
    );
}

#[test]
fn a_file_that_took_a_read_name_is_a_fault(rt: HostRuntime) {
    assert!(rt;
        right_anew(
            &rt,
            "taken/disc",
            "fresh done taken
        file done it image
        file done taken/other other
        read 4 it 0 imag
        rename done taken/other taken/disc
        write fault it 0 x
        holds done it other",
        )
    );
}

#[test]
fn a_file_that_was_cut_by_others_is_a_fault(rt: HostRuntime) {
    assert!(rt;
        right_anew(
            &rt,
            "short/disc",
            "fresh done short
        file done it image
        size 5 it
        cut done it 4
        read 2 it 2 ag--
        file done it im
        read fault it 2 ----
        size fault it
        write fault it 0 i
        cut fault it 1",
        )
    );
}

// Whether a file that a desk made is changed by this desk alone.
fn is_locked(rt: &HostRuntime, name: &str) -> bool {
    let made = "fresh done lock
        make done it
        write done it 0 abc";
    let others = "make fault it
        write fault it 0 x
        cut fault it 0
        size 3 it";
    let after = "write done it 3 d
        holds done it abcd";
    let mut desk = FileDesk::new(rt);
    all_right(rt, &mut desk, name, made)
        && right_anew(rt, name, others)
        && all_right(rt, &mut desk, name, after)
}

#[test]
fn a_file_that_another_desk_changes_is_a_fault(rt: HostRuntime) {
    assert!(rt; is_locked(&rt, "lock/file"));
}

#[test]
fn an_image_is_not_made_anew_where_names_are_swapped(rt: HostRuntime) {
    assert!(rt;
        right_anew(
            &rt,
            "swapped/disc",
            "fresh done swapped
        file done swapped/file *dvdisaster*RS01
        file done swapped/old *dvdisaster*
        file done it image
        file done swapped/empty
        size 16 swapped/file
        make fault it
        make done swapped/old
        make done swapped/empty
        make done swapped/new
        holds done it image",
        )
    );
    // Its locks went with the desk.
    assert!(rt;
        right_anew(
            &rt,
            "swapped/disc",
            "size 0 swapped/empty
        make done it",
        )
    );
}

fn reserve(
    rt: &HostRuntime,
    desk: &mut FileDesk<&HostRuntime>,
    name: &str,
) -> Result<(), AllocError> {
    desk.reserve(&[String::from_str(rt.alloc(), name)?])
}

#[test]
fn names_have_room_before_they_are_asked_for(rt: HostRuntime) -> Result<(), Fail> {
    let calls = "fresh done room
        write done room/b 0 b
        write done room/c 0 c
        write done room/a 0 a
        holds done room/a a
        holds done room/c c";
    let mut desk = FileDesk::new(&rt);
    reserve(&rt, &mut desk, "room/a")?;
    reserve(&rt, &mut desk, "room/b")?;
    assert!(rt; all_right(&rt, &mut desk, "", calls));
    Ok(())
}

#[test]
fn output_is_taken(rt: HostRuntime) {
    let mut sink = StdSink::new(&rt);
    assert!(rt; sink.put(b"").is_ok() && sink.put(b"put\n").is_ok());
    assert!(rt; sink.faults() == 0);
}
