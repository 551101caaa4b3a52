use cov_base::Int;
use cov_options::{Level, OptFault, OptValue, Options};
use cov_tree::Name;
use std::alloc::Global;
use std::test::Fail;

type Answer = Result<(), OptFault>;

const DONE: Answer = Ok(());

const WRONG: Answer = Err(OptFault::WrongLevel);

const RANGE: Answer = Err(OptFault::OutOfRange);

/// For each number whether its word is `type_option`, its name, its least, its most, and what setting it in a coverpoint
/// and in a cross answers.
static NUMBERS: [(bool, &[u8], i128, i128, Answer, Answer); 13] = [
    (false, b"weight", 0, 2_147_483_647, DONE, DONE),
    (false, b"goal", 0, 100, DONE, DONE),
    (false, b"at_least", 1, 2_147_483_647, DONE, DONE),
    (false, b"detect_overlap", 0, 1, DONE, WRONG),
    (false, b"auto_bin_max", 1, 65_536, DONE, WRONG),
    (
        false,
        b"cross_num_print_missing",
        0,
        2_147_483_647,
        WRONG,
        DONE,
    ),
    (false, b"per_instance", 0, 1, WRONG, WRONG),
    (false, b"get_inst_coverage", 0, 1, WRONG, WRONG),
    (true, b"weight", 0, 2_147_483_647, DONE, DONE),
    (true, b"goal", 0, 100, DONE, DONE),
    (true, b"strobe", 0, 1, WRONG, WRONG),
    (true, b"merge_instances", 0, 1, WRONG, WRONG),
    (true, b"distribute_first", 0, 1, WRONG, WRONG),
];

/// What setting a number in fresh options answers.
fn set_number(alloc: Global, on_type: bool, level: Level, name: &[u8], number: i128) -> Answer {
    let Some(number) = Int::new(number) else {
        return Err(OptFault::UnknownOption);
    };
    Options::new().set(on_type, level, name, OptValue::Number(number))
}

#[test]
fn numbers_have_their_ranges_and_levels(rt: HostRuntime) {
    let alloc = rt.alloc();
    for (on_type, name, least, most, point, cross) in &NUMBERS {
        let (low, high) = (least.saturating_sub(1), most.saturating_add(1));
        let got = [
            set_number(alloc, *on_type, Level::Group, name, *least),
            set_number(alloc, *on_type, Level::Group, name, *most),
            set_number(alloc, *on_type, Level::Group, name, low),
            set_number(alloc, *on_type, Level::Group, name, high),
            set_number(alloc, *on_type, Level::Point, name, *most),
            set_number(alloc, *on_type, Level::Cross, name, *least),
        ];
        assert_eq!(rt; got, [DONE, DONE, RANGE, RANGE, *point, *cross], "{name:?}");
    }
}

#[test]
fn texts_have_their_levels(rt: HostRuntime) -> Result<(), Fail> {
    let alloc = rt.alloc();
    let rows: [(bool, &[u8], Level, Answer); 9] = [
        (false, b"name", Level::Group, DONE),
        (false, b"name", Level::Point, WRONG),
        (false, b"name", Level::Cross, WRONG),
        (false, b"comment", Level::Cross, DONE),
        (true, b"comment", Level::Point, DONE),
        (true, b"name", Level::Group, Err(OptFault::UnknownOption)),
        (
            true,
            b"at_least",
            Level::Group,
            Err(OptFault::UnknownOption),
        ),
        (false, b"strobe", Level::Group, Err(OptFault::UnknownOption)),
        (false, b"goal", Level::Group, RANGE),
    ];
    for (on_type, name, level, wanted) in rows {
        let value = OptValue::Text(Name::of(alloc, b"why")?);
        let got = Options::new().set(on_type, level, name, value);
        assert_eq!(rt; got, wanted, "{name:?}");
    }
    Ok(())
}

#[test]
fn an_option_is_set_once(rt: HostRuntime) -> Result<(), Fail> {
    let alloc = rt.alloc();
    let mut options = Options::new();
    assert_eq!(rt; (options.goal, options.goal_set), (100, false));
    let rows: [(bool, i128, Answer); 5] = [
        (false, 101, RANGE),
        (false, 90, DONE),
        (false, 101, RANGE),
        (false, 80, Err(OptFault::SetTwice)),
        (true, 70, DONE),
    ];
    for (on_type, number, wanted) in rows {
        let value = OptValue::Number(Int::new(number).ok_or("no such number")?);
        let got = options.set(on_type, Level::Cross, b"goal", value);
        assert_eq!(rt; got, wanted, "{number}");
    }
    let text = OptValue::Text(Name::of(alloc, b"why")?);
    assert_eq!(rt; options.set(true, Level::Point, b"comment", text), DONE);
    assert_eq!(rt; (options.goal, options.goal_set), (90, true));
    assert_eq!(rt; (options.type_goal, options.type_goal_set), (70, true));
    assert_eq!(rt; options.type_comment.as_slice(), b"why".as_slice());
    assert_eq!(rt;
        (options.auto_bin_max, options.auto_bin_max_set),
        (64, false)
    );
    Ok(())
}
