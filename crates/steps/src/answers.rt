// What the gate answers to a step.
ghost use Rattle.std.specs.Prelude.{◌≡◌};
ghost use Rattle.steps.specs.Answers.{answer_of};

#[derive(Clone, Copy, Debug, PartialEq, Eq)]
pub enum Answer {
    Granted { selected: usize, ended: usize },
    // 30
    Broken { rule: usize, selected: usize },
    // 20 to 28, 40 and 50 to 52
    Refused { number: usize },
}

impl Answer {
    // The answer that a number stands for.
    #[tactic(auto, unfolding(crate::specs::Answers::answer_of))]
    pub fn of_word(word: u64) -> Answer
        ensures { result ≡ answer_of word }
    {
        let selected = (word / 16384 % 256) as usize;
        match word % 64 {
            0 => Answer::Granted {
                selected,
                ended: (word / 4194304 % 4096) as usize,
            },
            30 => Answer::Broken {
                rule: (word / 64 % 256) as usize,
                selected,
            },
            number => Answer::Refused {
                number: number as usize,
            },
        }
    }
}
