// Rows of files that are opened as a cache and closed again, or refused.
use crate::opening::{Case, told};

/// The length of a file of eight slots, and of one of three.
const EIGHT: usize = 16384 + 8 * 512;

const THREE: usize = 16384 + 3 * 512;

/// Three files of eight slots, for two workers.
const THREE_FILES: Case<'static> = Case {
    lengths: &[EIGHT, EIGHT, EIGHT],
    slot: 512,
    anchors: 2,
    workers: 2,
    call: None,
    station: None,
};

#[test]
fn files_are_opened_and_closed(rt: HostRuntime) {
    let story = told(rt.alloc(), &THREE_FILES);
    assert_eq!(rt;
        story.as_ref().map(|s| s.as_str()),
        Some("3 files for 2; same same same; 0 0 0")
    );
}

#[test]
fn eight_files_are_opened_and_closed(rt: HostRuntime) {
    let case = Case {
        lengths: &[EIGHT; 8],
        workers: 32,
        ..THREE_FILES
    };
    let story = told(rt.alloc(), &case);
    let wanted = "8 files for 32; same same same same same same same same; 0 0 0 0 0 0 0 0";
    assert_eq!(rt; story.as_ref().map(|s| s.as_str()), Some(wanted));
}

#[test]
fn a_file_that_is_missing_in_the_middle_is_told(rt: HostRuntime) {
    let case = Case {
        lengths: &[EIGHT, 0, EIGHT],
        ..THREE_FILES
    };
    let story = told(rt.alloc(), &case);
    let wanted = "file 1: Missing; same none untouched; 0";
    assert_eq!(rt; story.as_ref().map(|s| s.as_str()), Some(wanted));
}

#[test]
fn a_file_that_is_short_in_the_middle_is_told(rt: HostRuntime) {
    let case = Case {
        lengths: &[EIGHT, 100, EIGHT],
        ..THREE_FILES
    };
    let story = told(rt.alloc(), &case);
    let wanted = "file 1: Small { bytes: 100 }; same untouched untouched; 0";
    assert_eq!(rt; story.as_ref().map(|s| s.as_str()), Some(wanted));
}

#[test]
fn a_file_with_too_few_slots_in_the_middle_is_told(rt: HostRuntime) {
    let case = Case {
        lengths: &[EIGHT, THREE, EIGHT],
        anchors: 4,
        ..THREE_FILES
    };
    let story = told(rt.alloc(), &case);
    let wanted = "file 1: BadGeometry { field: 2 }; same same untouched; 0";
    assert_eq!(rt; story.as_ref().map(|s| s.as_str()), Some(wanted));
}

#[test]
fn the_first_of_two_files_that_are_refused_is_told(rt: HostRuntime) {
    let case = Case {
        lengths: &[EIGHT, 100, 0],
        ..THREE_FILES
    };
    let story = told(rt.alloc(), &case);
    let wanted = "file 1: Small { bytes: 100 }; same untouched none; 0";
    assert_eq!(rt; story.as_ref().map(|s| s.as_str()), Some(wanted));
}

#[test]
fn a_wrong_size_is_that_of_the_first_file(rt: HostRuntime) {
    let case = Case {
        slot: 100,
        ..THREE_FILES
    };
    let story = told(rt.alloc(), &case);
    let wanted = "file 0: BadGeometry { field: 1 }; untouched untouched untouched;";
    assert_eq!(rt; story.as_ref().map(|s| s.as_str()), Some(wanted));
}

#[test]
fn no_worker_is_refused_at_the_first_file(rt: HostRuntime) {
    let case = Case {
        workers: 0,
        ..THREE_FILES
    };
    let story = told(rt.alloc(), &case);
    let wanted = "file 0: BadGeometry { field: 3 }; untouched untouched untouched;";
    assert_eq!(rt; story.as_ref().map(|s| s.as_str()), Some(wanted));
}

#[test]
fn too_many_workers_are_refused_at_the_first_file(rt: HostRuntime) {
    let case = Case {
        workers: 33,
        ..THREE_FILES
    };
    let story = told(rt.alloc(), &case);
    let wanted = "file 0: BadGeometry { field: 3 }; untouched untouched untouched;";
    assert_eq!(rt; story.as_ref().map(|s| s.as_str()), Some(wanted));
}

#[test]
fn a_first_file_that_does_not_open_is_told(rt: HostRuntime) {
    let case = Case {
        call: Some(0),
        ..THREE_FILES
    };
    let story = told(rt.alloc(), &case);
    let wanted = "file 0: Failed; untouched untouched untouched;";
    assert_eq!(rt; story.as_ref().map(|s| s.as_str()), Some(wanted));
}

#[test]
fn a_first_station_that_is_not_made_is_told(rt: HostRuntime) {
    let case = Case {
        call: Some(1),
        ..THREE_FILES
    };
    let story = told(rt.alloc(), &case);
    let wanted = "file 0: Failed; same untouched untouched;";
    assert_eq!(rt; story.as_ref().map(|s| s.as_str()), Some(wanted));
}

#[test]
fn a_second_file_that_does_not_open_is_told(rt: HostRuntime) {
    let case = Case {
        call: Some(2),
        ..THREE_FILES
    };
    let story = told(rt.alloc(), &case);
    let wanted = "file 1: Failed; same untouched untouched; 0";
    assert_eq!(rt; story.as_ref().map(|s| s.as_str()), Some(wanted));
}

#[test]
fn a_second_station_that_is_not_made_is_told(rt: HostRuntime) {
    let case = Case {
        call: Some(3),
        ..THREE_FILES
    };
    let story = told(rt.alloc(), &case);
    let wanted = "file 1: Failed; same same untouched; 0";
    assert_eq!(rt; story.as_ref().map(|s| s.as_str()), Some(wanted));
}

#[test]
fn a_last_file_that_does_not_open_is_told(rt: HostRuntime) {
    let case = Case {
        call: Some(4),
        ..THREE_FILES
    };
    let story = told(rt.alloc(), &case);
    let wanted = "file 2: Failed; same same untouched; 0 0";
    assert_eq!(rt; story.as_ref().map(|s| s.as_str()), Some(wanted));
}

#[test]
fn a_last_station_that_is_not_made_is_told(rt: HostRuntime) {
    let case = Case {
        call: Some(5),
        ..THREE_FILES
    };
    let story = told(rt.alloc(), &case);
    let wanted = "file 2: Failed; same same same; 0 0";
    assert_eq!(rt; story.as_ref().map(|s| s.as_str()), Some(wanted));
}

#[test]
fn no_call_of_the_volume_is_made_behind_the_last_station(rt: HostRuntime) {
    let case = Case {
        call: Some(6),
        ..THREE_FILES
    };
    let story = told(rt.alloc(), &case);
    let wanted = "3 files for 2; same same same; 0 0 0";
    assert_eq!(rt; story.as_ref().map(|s| s.as_str()), Some(wanted));
}

#[test]
fn a_first_station_that_fails_is_told(rt: HostRuntime) {
    let case = Case {
        station: Some(0),
        ..THREE_FILES
    };
    let story = told(rt.alloc(), &case);
    let wanted = "file 0: Failed; same untouched untouched; 1";
    assert_eq!(rt; story.as_ref().map(|s| s.as_str()), Some(wanted));
}

#[test]
fn a_second_station_that_fails_is_told(rt: HostRuntime) {
    let case = Case {
        station: Some(1),
        ..THREE_FILES
    };
    let story = told(rt.alloc(), &case);
    let wanted = "file 1: Failed; same same untouched; 0 1";
    assert_eq!(rt; story.as_ref().map(|s| s.as_str()), Some(wanted));
}

#[test]
fn a_last_station_that_fails_is_told(rt: HostRuntime) {
    let case = Case {
        station: Some(2),
        ..THREE_FILES
    };
    let story = told(rt.alloc(), &case);
    let wanted = "file 2: Failed; same same same; 0 0 1";
    assert_eq!(rt; story.as_ref().map(|s| s.as_str()), Some(wanted));
}

/// What opening three files may come to where an allocation of the test is refused: the file that is told, how far each file
/// came, and the stations that were ended. In front is what it comes to where none is.
const WITH_LITTLE_MEMORY: [&str; 10] = [
    "3 files for 2; same same same; 0 0 0",
    "file 0: Memory; untouched untouched untouched;",
    "file 0: Memory; same untouched untouched;",
    "file 0: Memory; same untouched untouched; 0",
    "file 1: Memory; same untouched untouched; 0",
    "file 1: Memory; same same untouched; 0",
    "file 1: Memory; same same untouched; 0 0",
    "file 2: Memory; same same untouched; 0 0",
    "file 2: Memory; same same same; 0 0",
    "file 2: Memory; same same same; 0 0 0",
];

/// `tests/refused_tests.sh test_dirs` runs it with each allocation refused in turn.
#[test]
fn each_file_has_its_bytes_where_memory_is_wanting(rt: HostRuntime) {
    let story = told(rt.alloc(), &THREE_FILES);
    let is_one = match &story {
        Some(text) => WITH_LITTLE_MEMORY.iter().any(|each| *each == text.as_str()),
        None => false,
    };
    assert!(rt; is_one);
}
