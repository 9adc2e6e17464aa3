/// The most steps that `churn` can be asked for.
pub const CHURN_STEPS: u32 = 10_000;
