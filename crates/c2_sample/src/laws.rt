// What holds of each sample; nothing is computed.
ghost use Rattle.c2_sample.specs.Sample.{EachSample, EachSampleAsks, OneSample, OneSampleAsks};

/// A sample of so many pieces has one outcome, and asks one list of questions.
pub fn a_sample_comes_to_one_thing()
    ensures sample { OneSample }
    ensures asks { OneSampleAsks }
{}

/// Under a hash that gives digests, so many pieces come to something, and ask a list of questions.
pub fn each_sample_comes_to_something()
    ensures sample { EachSample }
    ensures asks { EachSampleAsks }
{}
