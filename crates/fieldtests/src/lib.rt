// Tests of the field table and of the finished line: each refusal, links, turning, and lines up to the longest.
#![tactic(auto)]

#[cfg(test)]
mod tests {
    use fields::fault::FieldFault;
    use fields::field::Field;
    use fields::format::{FieldKind, Format};
    use fields::links::Links;
    use fields::table::{FieldName, Fields};
    use limits::sizes::LONGEST_LINE;
    use std::test::Fail;
    use tagline::line::write_line;
    use texts::checks::Check;
    use texts::digits::{Code128Rule, PlainRule};
    use texts::text::Text;

    fn plain(check: Check, links: Links) -> Format {
        Format {
            x: 100,
            y: 50,
            check,
            step: 1,
            kept: Some(3),
            links,
            kind: FieldKind::Text,
        }
    }

    fn two_then_one() -> Links {
        let mut links = Links::none();
        let _ = links.push(2);
        let _ = links.push(1);
        links
    }

    #[test]
    fn joins_in_the_order_of_the_links(rt: HostRuntime) -> Result<(), Fail> {
        let a = Text::from_bytes(b"A")?;
        let b = Text::from_bytes(b"B")?;
        let mut fields = Fields::blank();
        assert_eq!(rt;
            fields.replace(
                FieldName::Text(1),
                plain(Check::NoCheck, two_then_one()),
                Text::empty(),
            ),
            Ok(())
        );
        assert_eq!(rt; fields.set_links(&[a, b]), Ok(()));
        assert!(rt; fields.texts()[0].text().as_bytes() == b"BA".as_slice());
        assert_eq!(rt; fields.set_links(&[a]), Ok(()));
        assert!(rt; fields.texts()[0].text().as_bytes() == b"A".as_slice());
        assert_eq!(rt; fields.set_links(&[]), Ok(()));
        assert!(rt; fields.texts()[0].text().is_empty());
        Ok(())
    }

    #[test]
    fn refuses_in_order(rt: HostRuntime) -> Result<(), Fail> {
        let letters = Text::from_bytes(b"AB")?;
        let long = Text::from_bytes(b"012345678901234567890")?;
        let mut fields = Fields::blank();
        assert_eq!(rt;
            fields.set_text(FieldName::Text(2), letters),
            Err(FieldFault::NoFormat)
        );
        assert_eq!(rt;
            fields.set_text(FieldName::Bar(9), letters),
            Err(FieldFault::NoFormat)
        );
        assert_eq!(rt;
            fields.replace(
                FieldName::Text(1),
                plain(Check::Modulus10, Links::none()),
                letters,
            ),
            Err(FieldFault::OutsideCheck)
        );
        assert!(rt; fields.texts()[0].format().is_none());
        assert_eq!(rt;
            fields.replace(
                FieldName::Text(1),
                plain(Check::Modulus10, two_then_one()),
                Text::empty(),
            ),
            Ok(())
        );
        assert_eq!(rt;
            fields.set_text(FieldName::Text(1), letters),
            Err(FieldFault::FieldLinked)
        );
        assert_eq!(rt;
            fields.set_links(&[long, long]),
            Err(FieldFault::JoinedTooLong)
        );
        assert_eq!(rt;
            fields.set_links(&[long, letters]),
            Err(FieldFault::OutsideCheck)
        );
        assert!(rt; fields.texts()[0].text().is_empty());
        Ok(())
    }

    #[test]
    fn links_are_set_in_all_fields_or_in_none(rt: HostRuntime) -> Result<(), Fail> {
        let short = Text::from_bytes(b"AB")?;
        let long = Text::from_bytes(b"012345678901234567890")?;
        let mut once = Links::none();
        let _ = once.push(1);
        let mut twice = once;
        let _ = twice.push(1);
        let mut fields = Fields::blank();
        assert_eq!(rt;
            fields.replace(
                FieldName::Text(1),
                plain(Check::NoCheck, once),
                Text::empty(),
            ),
            Ok(())
        );
        assert_eq!(rt;
            fields.replace(
                FieldName::Text(2),
                plain(Check::NoCheck, Links::none()),
                short,
            ),
            Ok(())
        );
        assert_eq!(rt;
            fields.replace(
                FieldName::Bar(8),
                plain(Check::NoCheck, twice),
                Text::empty(),
            ),
            Ok(())
        );
        assert_eq!(rt; fields.set_links(&[short, long]), Ok(()));
        assert!(rt; fields.texts()[0].text().as_bytes() == b"AB".as_slice());
        assert!(rt; fields.bars()[7].text().as_bytes() == b"ABAB".as_slice());
        // One of them fits in the text field; twice it is too long for the bar.
        assert_eq!(rt; fields.set_links(&[long]), Err(FieldFault::JoinedTooLong));
        assert!(rt; fields.texts()[0].text().as_bytes() == b"AB".as_slice());
        assert!(rt; fields.bars()[7].text().as_bytes() == b"ABAB".as_slice());
        // Fields that are not linked keep their text.
        assert_eq!(rt; fields.set_links(&[]), Ok(()));
        assert!(rt; fields.texts()[0].text().is_empty());
        assert!(rt; fields.texts()[1].text().as_bytes() == b"AB".as_slice());
        Ok(())
    }

    #[test]
    fn turns_by_the_rule_of_the_kind(rt: HostRuntime) -> Result<(), Fail> {
        let text = Text::from_bytes(b"9>09")?;
        let format = plain(Check::NoCheck, Links::none());
        let mut fields = Fields::blank();
        assert_eq!(rt; fields.replace(FieldName::Text(16), format, text), Ok(()));
        let code39 = Format {
            kind: FieldKind::Code39,
            ..format
        };
        assert_eq!(rt; fields.replace(FieldName::Bar(1), code39, text), Ok(()));
        let code128 = Format {
            kind: FieldKind::Code128,
            ..format
        };
        assert_eq!(rt; fields.replace(FieldName::Bar(2), code128, text), Ok(()));
        fields.turn(&PlainRule, &Code128Rule);
        assert!(rt; fields.texts()[15].text().as_bytes() == b"9>10".as_slice());
        assert!(rt; fields.bars()[0].text().as_bytes() == b"9>10".as_slice());
        assert!(rt; fields.bars()[1].text().as_bytes() == b"0>00".as_slice());
        Ok(())
    }

    #[test]
    fn writes_the_longest_line(rt: HostRuntime) -> Result<(), Fail> {
        // Forty bytes and a check character in every field.
        let full = Text::from_bytes(b"0123456789ABCDEFGHIJKLMNOPQRSTUVWXYZ-. $")?;
        let format = plain(Check::Modulus43, Links::none());
        let mut fields = Fields::blank();
        for n in 1..=16 {
            assert_eq!(rt; fields.replace(FieldName::Text(n), format, full), Ok(()));
        }
        for n in 1..=8 {
            assert_eq!(rt; fields.replace(FieldName::Bar(n), format, full), Ok(()));
        }
        let mut work = [b'.'; LONGEST_LINE];
        assert_eq!(rt; write_line(&fields, 1, 2, &mut work[1..]), None);
        assert_eq!(rt; work[1353], b'.');
        assert_eq!(rt; write_line(&fields, 1, 2, &mut work), Some(1354));
        assert_eq!(rt; work[1353], b'\n');
        Ok(())
    }

    #[test]
    fn writes_the_line(rt: HostRuntime) -> Result<(), Fail> {
        let mut fields = Fields::blank();
        let digits = Text::from_bytes(b"0041")?;
        assert_eq!(rt;
            fields.replace(
                FieldName::Text(1),
                plain(Check::Modulus10, Links::none()),
                digits,
            ),
            Ok(())
        );
        let mut work = [b'.'; LONGEST_LINE];
        assert_eq!(rt; write_line(&fields, 1, 2, &mut work), Some(30));
        assert!(rt; &work[0..31] == b"0001,0002,T01,0100,0050,  413\n.".as_slice());
        fields.clear_texts();
        assert_eq!(rt; write_line(&fields, 1, 2, &mut work), Some(10));
        assert!(rt; &work[0..11] == b"0001,0002\nT".as_slice());
        Ok(())
    }
}
