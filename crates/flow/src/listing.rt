// The list of greatest certain chains. Each function stands for the theorem that is its contract.
ghost use Rattle.flow.specs.Promises.{PartCertain, GreatestByOneLine, ListIsComplete};

pub fn part_certain()
    ensures { PartCertain }
{}

pub fn greatest_by_one_line()
    ensures { GreatestByOneLine }
{}

pub fn list_is_complete()
    ensures { ListIsComplete }
{}
