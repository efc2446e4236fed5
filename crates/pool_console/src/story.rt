//! The built-in story: four sites, offices that clash, a site that is brought back, and one that lies.

/// A script like any other. Its comments are printed too.
pub const STORY: &str =
    "# Four sites keep the titles of bills; one of them may lie. Client 0 is the carrier, 1 the shipper, 2 the bank.
pool 1 titles
#
# The carrier issues bill 5 to the shipper. Nobody else writes: each site grants the next place, and a quorum of grants is a certificate.
write 0 issue 5 1
#
# The bank reads who holds the bill, and has the answer once a quorum agrees.
read 2 look 5
#
# The shipper and the carrier write at once, each reaching two sites first. Neither has a quorum, so both writes stay open.
down 2
down 3
write 1 transfer 5 2
up 2
up 3
down 0
down 1
write 0 issue 6 1
up 0
up 1
#
# Site 3 is pulled out. The shipper asks the others again: they have granted one place to two claims, a clash.
# The sites stop, the ordering service sends the round, and its settlement has the mark and both requests.
down 3
again 1
again 0
#
# Site 3 comes back. It is handed the certificates and the round that it missed.
up 3
compare
resend 3
compare
#
# Site 3 lies from now on: it grants every request the next place, whoever else has it. The bank reaches sites 0 and 3, then the carrier 1, 2 and 3.
lie 3
down 1
down 2
write 2 transfer 5 3
up 1
up 2
down 0
write 0 issue 7 2
up 0
#
# Site 3 has granted one place twice, and the carrier's write is done. The bank asks again, and gets the next place.
again 2
#
# Site 0 is handed what it missed. The lie changed nothing: there is one book, and whoever reads, reads it.
resend 0
read 1 look 5
read 1 look 6
read 1 look 7
compare
";
