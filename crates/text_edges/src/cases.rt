// The kinds of cases, each by the word that it starts with.
#[derive(Clone, Copy)]
pub(crate) enum Kind {
    Rules,
    Saved,
    Length,
    Time,
    Policies,
    Join,
    Input,
    LongInput,
    WriteRules,
    WriteSaved,
    WriteResponse,
    WritePolicies,
}

const KINDS: [(&str, Kind); 12] = [
    ("rules:", Kind::Rules),
    ("saved:", Kind::Saved),
    ("length:", Kind::Length),
    ("time:", Kind::Time),
    ("policies:", Kind::Policies),
    ("join:", Kind::Join),
    ("input:", Kind::Input),
    ("long input:", Kind::LongInput),
    ("write rules:", Kind::WriteRules),
    ("write saved:", Kind::WriteSaved),
    ("write response:", Kind::WriteResponse),
    ("write policies:", Kind::WritePolicies),
];

pub(crate) fn kind_of(case: &[u8]) -> Option<Kind> {
    let (_, kind) = KINDS
        .iter()
        .find(|(word, _)| case.starts_with(word.as_bytes()))?;
    Some(*kind)
}
