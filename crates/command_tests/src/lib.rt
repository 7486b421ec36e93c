//! Tests of the program's commands: which words make which command, which make none, how answers are told, and which lines of a script make which call.
#![tactic(auto)]

#[cfg(test)]
mod scripts;

#[cfg(test)]
mod tests {
    use commands::command::Command;
    use commands::finding::Finding;
    use commands::label::Label;
    use commands::printing::Row;
    use commands::question::Question;
    use commands::routes::Links;
    use commands::source::Source;
    use commands::total::{CostKind, Total};
    use grids::GridPlan;
    use std::test::Fail;

    // A street grid of four columns and three rows.
    const GRID: Source<'static> = Source::Grid(GridPlan {
        columns: 4,
        rows: 3,
        along: 1_000_000,
        across: 150,
        channels: 255,
    });

    // Whether words make this command.
    fn is_command(words: &[&str], expected: Command) -> bool {
        Command::of(words).is_ok_and(|command| command == expected)
    }

    #[test]
    fn words_of_plain_commands(rt: HostRuntime) {
        assert!(rt; is_command(&[], Command::Sample));
        assert!(rt; is_command(&["help"], Command::Help));
        assert!(rt; is_command(&["read", "-"], Command::Read { file: "-" }));
        let certificate = Command::Certificate { file: "1.cert" };
        assert!(rt; is_command(&["certificate", "1.cert"], certificate));
        let board = Command::Board {
            source: Source::Sheet("a.sheet"),
            script: "-",
        };
        assert!(rt; is_command(&["board", "a.sheet", "-"], board));
        let board = Command::Board {
            source: GRID,
            script: "day.script",
        };
        let words = ["board", "grid:4:3:1000000:150:255", "day.script"];
        assert!(rt; is_command(&words, board));
    }

    #[test]
    fn words_of_quotes(rt: HostRuntime) {
        let by_length = Command::Plan {
            source: Source::Sheet("a.sheet"),
            question: Question::Quote {
                root: 0,
                target: 65535,
                kind: CostKind::Length,
            },
        };
        assert!(rt; is_command(&["quote", "a.sheet", "0", "65535"], by_length));
        assert!(rt; is_command(&["quote", "a.sheet", "0", "65535", "length"], by_length));
        let by_poles = Command::Plan {
            source: GRID,
            question: Question::Quote {
                root: 1,
                target: 2,
                kind: CostKind::PolesFirst,
            },
        };
        let words = ["quote", "grid:4:3:1000000:150:255", "1", "2", "poles"];
        assert!(rt; is_command(&words, by_poles));
    }

    #[test]
    fn words_of_surveys(rt: HostRuntime) {
        let by_length = Command::Plan {
            source: GRID,
            question: Question::Survey {
                root: 11,
                kind: CostKind::Length,
            },
        };
        assert!(rt; is_command(&["survey", "grid:4:3:1000000:150:255", "11"], by_length));
        let by_poles = Command::Plan {
            source: Source::Sheet("-"),
            question: Question::Survey {
                root: 11,
                kind: CostKind::PolesFirst,
            },
        };
        assert!(rt; is_command(&["survey", "-", "11", "poles"], by_poles));
    }

    #[test]
    fn words_of_no_command(rt: HostRuntime) {
        let refused: [&[&str]; 18] = [
            &["frobnicate"],
            &["help", "quote"],
            &["read"],
            &["read", "a.sheet", "b.sheet"],
            &["certificate"],
            &["board", "a.sheet"],
            &["board", "-", "-"],
            &["board", "grid:4:3", "-"],
            &["quote", "-", "0"],
            &["quote", "-", "0", "5", "length", "poles"],
            &["quote", "-", "0", "65536"],
            &["quote", "-", "-1", "5"],
            &["quote", "-", "", "5"],
            &["quote", "-", "0", "5", "poles-first"],
            &["survey", "-"],
            &["survey", "-", "Weir"],
            &["survey", "grid:4:3:100:150", "0"],
            &["survey", "grid:4:3:100:150:1:1", "0"],
        ];
        for words in refused {
            assert!(rt; Command::of(words).is_err(), "{words:?}");
        }
    }

    #[test]
    fn answers_told(rt: HostRuntime) -> Result<(), Fail> {
        let length = Total::Length { metres: 800 };
        let poles = Total::PolesFirst {
            poles: 5,
            metres: 65,
        };
        let told = [
            (Finding::Pair(length), "pair 800", "3 pair 800 3"),
            (Finding::Pair(poles), "pair 5 65", "3 pair 5 65 3"),
            (Finding::Cut(6), "cut 6", "3 cut 6 3"),
            (Finding::None, "none", "3 none 0 3"),
        ];
        for (finding, first, line) in told {
            let row = Row {
                site: 3,
                finding,
                label: Label::of(3, None),
            };
            assert_eq!(rt; finding.to_string(rt.alloc())?.as_str(), first);
            assert_eq!(rt; row.to_string(rt.alloc())?.as_str(), line);
        }
        Ok(())
    }

    #[test]
    fn links_told(rt: HostRuntime) -> Result<(), Fail> {
        assert_eq!(rt; Links(&[]).to_string(rt.alloc())?.as_str(), "");
        assert_eq!(rt;
            Links(&[0, 2047]).to_string(rt.alloc())?.as_str(),
            " 0 2047"
        );
        Ok(())
    }
}
