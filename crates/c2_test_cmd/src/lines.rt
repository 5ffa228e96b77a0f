// Lines of reports as texts, with numbers and characters that no file brings about.
use c2_base::Text;
use c2_cmd_extract::extracted_line;
use c2_cmd_strip::{middle_line, stripped_line};
use c2_rules::{Code, Failing, Summary};
use c2_spec::{Reason, Verdict};
use c2_texts::{
    different_line, digest_line, failing_line, no_question_line, none_line, question_line,
    refused_line, same_line, store_refused_line, usage_line, valid_line,
};
use std::test::Fail;

#[test]
fn plain_lines_are_these(rt: HostRuntime) -> Result<(), Fail> {
    let alloc = rt.alloc();
    let mut text = usage_line(alloc)?;
    text.push_str(none_line(alloc)?.as_str())?;
    text.push_str(refused_line(alloc, Reason::BadHead, u64::MAX)?.as_str())?;
    text.push_str(digest_line(alloc, 2, 50, &[0x0A, 0xBC])?.as_str())?;
    let failing = Failing {
        code: Code::ClaimMissing,
        uri: Text::copied(alloc, "self#jumbf=/c2pa/\u{1f}a é\u{7f}€")?,
    };
    text.push_str(failing_line(alloc, &failing)?.as_str())?;
    let summary = Summary {
        manifests: 1,
        assertions: 20,
        covered: u64::MAX,
        outside: 0,
    };
    text.push_str(valid_line(alloc, summary)?.as_str())?;
    text.push_str(same_line(alloc, summary)?.as_str())?;
    text.push_str(different_line(alloc)?.as_str())?;
    text.push_str(question_line(alloc, &[0xFF, 0x00], "m\n", Verdict::Silent)?.as_str())?;
    text.push_str(no_question_line(alloc, "m\tn")?.as_str())?;
    text.push_str(stripped_line(alloc, 20, u64::MAX)?.as_str())?;
    text.push_str(middle_line(alloc, 16)?.as_str())?;
    text.push_str(extracted_line(alloc, 1129)?.as_str())?;
    text.push_str(store_refused_line(alloc, Reason::Trailing, 1129)?.as_str())?;
    assert_eq!(rt; text.as_str(), PLAIN);
    Ok(())
}

const PLAIN: &str =
    "usage: c2 digest MEDIA [ALG]; list|show MEDIA; questions|validate MEDIA [JUDGE..]; compare MEDIA OTHER [JUDGE..]; plan MEDIA DEFINITION [JUDGE..]; embed MEDIA DEFINITION SIGNATURE OUT [JUDGE..]; sample N; strip|extract MEDIA OUT; validate-external MEDIA STORE [JUDGE..]; plan-front MEDIA DEFINITION; embed-front MEDIA DEFINITION SIGNATURE OUT; plan-collect MEDIA DEFINITION OTHER [JUDGE..]; embed-collect MEDIA DEFINITION SIGNATURE OTHER OUT [JUDGE..]
none
refused BadHead 18446744073709551615
2 50 0abc
failing claim.missing self#jumbf=/c2pa/?a é?€
valid manifests=1 assertions=20 covered=18446744073709551615 outside=0
same manifests=1 assertions=20 covered=18446744073709551615
different claims
ff00 m? silent
- m?n none
stripped 20 18446744073709551615
strip Middle 16
extracted 1129
refused store Trailing 1129
";
