// The worked books. The function stands for the theorem that is its contract.
ghost use Rattle.flow.specs.Worked.{WorkedBooksStand};

pub fn worked_books_stand()
    ensures { WorkedBooksStand }
{}
