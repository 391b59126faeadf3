// The theorems on lines, each asked for by the contract of a function:
// these functions do nothing else.
ghost use Rattle.lines.specs.Faults.{BytesHaveAVerdict, SpellingTells, TheVerdictIsOne};

pub fn lines_have_one_verdict()
    ensures some { BytesHaveAVerdict }
    ensures one { TheVerdictIsOne }
    ensures tells { SpellingTells }
{}
