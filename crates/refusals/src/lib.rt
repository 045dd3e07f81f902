// Page 01's table of refusals: the rules that can be broken, the number of each, and what every answer that refuses carries.
#![tactic(auto)]

ghost use Rattle.std.specs.Prelude.{◌≡◌};
ghost use Rattle.refusals.specs.Table.{number_of, broken};

// A rule of the table.
#[derive(Clone, Copy, Debug, PartialEq, Eq)]
pub enum Rule {
    // A setting.
    Setting,
    // Code too long.
    LongCode,
    // Register buffer length.
    Buffer,
    // Opcode not carried, or modifier not listed for it (none listed: not 0).
    NotCarried,
    // Second word missing.
    NoSecond,
    // A field, predicate form, predicate or special number.
    Field,
    // Register number R or more.
    Register,
    // Stray ELSE, ENDIF, ENDLOOP, BREAK, CONTINUE.
    Stray,
    // A 33rd open block.
    Depth,
    // Block open at the end.
    Unclosed,
    // State doesn't fit.
    State,
    // No words give this instruction, for R = 256.
    NoWords,
    // Output shorter than the result.
    Short,
    // Body or file not of the layout.
    NotOfLayout,
    // More than 1,024 records.
    TooMany,
    // No such record.
    NoRecord,
}

impl Rule {
    // Its number in the table.
    pub fn number(self) -> u32
        ensures { result ≡ number_of self }
    {
        match self {
            Rule::Setting => 1,
            Rule::LongCode => 2,
            Rule::Buffer => 3,
            Rule::NotCarried => 4,
            Rule::NoSecond => 5,
            Rule::Field => 6,
            Rule::Register => 7,
            Rule::Stray => 8,
            Rule::Depth => 9,
            Rule::Unclosed => 10,
            Rule::State => 11,
            Rule::NoWords => 12,
            Rule::Short => 13,
            Rule::NotOfLayout => 14,
            Rule::TooMany => 15,
            Rule::NoRecord => 16,
        }
    }
}

// The number of the rule that is broken, and where. A number and no `Rule`: a key is asked for of any answer, and the program `agree` hands in
// refusals of any number.
#[derive(Clone, Copy, Debug, PartialEq, Eq)]
pub struct Refusal {
    pub number: u32,
    pub place: usize,
}

// The refusal of a broken rule.
pub fn broken(rule: Rule, place: usize) -> Refusal
    ensures { result ≡ broken rule place }
{
    Refusal {
        number: rule.number(),
        place,
    }
}
