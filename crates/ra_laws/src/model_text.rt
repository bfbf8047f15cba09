//! Laws of the text of an instance: each function does nothing, and its contract is a law that was proved.
ghost use Rattle.ra_laws.specs.ModelTextLaws.{ModelTextsAreModels, ModelTextsAreAccepted};

/// The text of an instance within the limits means exactly the instance without closed machines: its lists and no
/// others.
pub fn model_texts_are_models()
    ensures { ModelTextsAreModels }
{}

/// Nothing is wrong with the text of an instance within the limits.
pub fn model_texts_are_accepted()
    ensures { ModelTextsAreAccepted }
{}
