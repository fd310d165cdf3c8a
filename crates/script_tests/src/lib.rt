// Tests of reading the lines of a script.
#![tactic(auto)]

#[cfg(test)]
mod tests {
    use runs::records::Call;
    use script::{Line, read_line};

    #[test]
    fn words_alone(rt: HostRuntime) {
        assert_eq!(rt; read_line(b"pick"), Line::Call(Call::Pick));
        assert_eq!(rt; read_line(b"finish"), Line::Call(Call::Finish));
        assert_eq!(rt; read_line(b"deliver"), Line::Call(Call::Deliver));
        assert_eq!(rt; read_line(b"report"), Line::Call(Call::Report));
        assert_eq!(rt; read_line(b"close"), Line::Call(Call::Close));
    }

    #[test]
    fn words_with_arguments(rt: HostRuntime) {
        assert_eq!(rt; read_line(b"advance 1000"), Line::Call(Call::Advance(1000)));
        assert_eq!(rt; read_line(b"start 007"), Line::Call(Call::Start(7)));
        let arrival = Call::Arrive {
            sensor: 0,
            timestamp: 990,
            value: -7,
        };
        assert_eq!(rt; read_line(b"arrive 0 990 -7"), Line::Call(arrival));
    }

    #[test]
    fn lines_passed_over(rt: HostRuntime) {
        assert_eq!(rt; read_line(b""), Line::Passed);
        assert_eq!(rt; read_line(b"#pick"), Line::Passed);
    }

    #[test]
    fn numbers_that_do_not_fit(rt: HostRuntime) {
        let largest = Line::Call(Call::Start(18_446_744_073_709_551_615));
        assert_eq!(rt; read_line(b"start 18446744073709551615"), largest);
        assert_eq!(rt; read_line(b"start 18446744073709551616"), Line::NotACall);
        let least = Call::Arrive {
            sensor: 1,
            timestamp: 2,
            value: -2_147_483_648,
        };
        assert_eq!(rt; read_line(b"arrive 1 2 -2147483648"), Line::Call(least));
        assert_eq!(rt; read_line(b"arrive 1 2 -2147483649"), Line::NotACall);
        assert_eq!(rt; read_line(b"arrive 1 2 2147483648"), Line::NotACall);
    }

    #[test]
    fn lines_that_are_no_call(rt: HostRuntime) {
        assert_eq!(rt; read_line(b" pick"), Line::NotACall);
        assert_eq!(rt; read_line(b"pick "), Line::NotACall);
        assert_eq!(rt; read_line(b"advance"), Line::NotACall);
        assert_eq!(rt; read_line(b"advance "), Line::NotACall);
        assert_eq!(rt; read_line(b"advance  5"), Line::NotACall);
        assert_eq!(rt; read_line(b"advance +5"), Line::NotACall);
        assert_eq!(rt; read_line(b"start -5"), Line::NotACall);
        assert_eq!(rt; read_line(b"start 5\r"), Line::NotACall);
        assert_eq!(rt; read_line(b"arrive 0 990"), Line::NotACall);
        assert_eq!(rt; read_line(b"arrive 0 990 - 7"), Line::NotACall);
        assert_eq!(rt; read_line(b"arrive 0 990 7 8"), Line::NotACall);
        assert_eq!(rt; read_line(b"\xFF\x00"), Line::NotACall);
    }
}
